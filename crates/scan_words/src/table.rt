ghost use Rattle.std.specs.Prelude.{◌≡◌, ◌≢◌, ◌≤◌, ◌<◌, ◌^◌, ℕ, decimal, MatchOption};
ghost use Rattle.std.specs.Str.{bytes_eq};
ghost use Rattle.scan_words.specs.Table.{option_text, value_form, has_form, is_like, is_number};

use itoa::Buffer;

/// An option, known by its name.
#[derive(Clone, Copy, PartialEq, Eq)]
pub enum OptionName {
    Table,
    Lef,
    Verilog,
    Def,
    Stil,
    NewVerilog,
    NewStil,
    Log,
    OutVerilog,
    OutDef,
    OutStil,
    OutSvg,
    Cell,
    InPin,
    OutPin,
    ScanIn,
    ScanOut,
    Effort,
    Device,
    Rounds,
    Units,
}

/// What the value of an option is.
#[derive(Clone, Copy, PartialEq, Eq)]
pub enum ValueForm {
    /// The name of a file. No two files of a command have one name.
    File,
    /// The name of a pin. No two pins of a command have one name.
    Pin,
    /// Any other name.
    Name,
    /// `order` or `full`.
    Effort,
    /// `hold` or `mix`.
    Device,
    /// A decimal number from 0 to 1000, without sign or leading zero.
    Rounds,
    /// A decimal number from 8 to 16384, without sign or leading zero.
    Units,
}

/// Whether an option stands among the words.
#[derive(Clone, Copy, PartialEq, Eq)]
pub enum Need {
    /// It stands.
    Needed,
    /// It may be left out.
    Optional,
    /// It stands exactly where this other one does.
    With(OptionName),
}

/// A row of a command's table: an option, and whether it stands.
#[derive(Clone, Copy, PartialEq, Eq)]
pub struct OptionForm {
    pub name: OptionName,
    pub need: Need,
}

impl OptionName {
    /// The option's row: the name behind the two hyphens, and what its value is.
    fn row<'a>(self) -> (&'a str, ValueForm)
        ensures text { result.0.now ≡ option_text self }
        ensures form { result.1 ≡ value_form self }
    {
        match self {
            OptionName::Table => ("table", ValueForm::File),
            OptionName::Lef => ("lef", ValueForm::File),
            OptionName::Verilog => ("verilog", ValueForm::File),
            OptionName::Def => ("def", ValueForm::File),
            OptionName::Stil => ("stil", ValueForm::File),
            OptionName::NewVerilog => ("new-verilog", ValueForm::File),
            OptionName::NewStil => ("new-stil", ValueForm::File),
            OptionName::Log => ("log", ValueForm::File),
            OptionName::OutVerilog => ("out-verilog", ValueForm::File),
            OptionName::OutDef => ("out-def", ValueForm::File),
            OptionName::OutStil => ("out-stil", ValueForm::File),
            OptionName::OutSvg => ("out-svg", ValueForm::File),
            OptionName::Cell => ("cell", ValueForm::Name),
            OptionName::InPin => ("in-pin", ValueForm::Pin),
            OptionName::OutPin => ("out-pin", ValueForm::Pin),
            OptionName::ScanIn => ("scan-in", ValueForm::Name),
            OptionName::ScanOut => ("scan-out", ValueForm::Name),
            OptionName::Effort => ("effort", ValueForm::Effort),
            OptionName::Device => ("device", ValueForm::Device),
            OptionName::Rounds => ("rounds", ValueForm::Rounds),
            OptionName::Units => ("units", ValueForm::Units),
        }
    }

    /// The name behind the two hyphens.
    pub(crate) fn text<'a>(self) -> &'a str
        ensures { result.now ≡ option_text self }
    {
        self.row().0
    }

    /// Whether this is the option's name.
    pub(crate) fn is_called(self, name: &str) -> bool
        ensures { result ≡ bytes_eq (option_text self) name.now }
    {
        self.text() == name
    }

    /// What the option's value is.
    pub(crate) fn value_form(self) -> ValueForm
        ensures { result ≡ value_form self }
    {
        self.row().1
    }
}

/// The number whose decimal a text is, without sign or leading zero.
fn number_in(value: &str) -> Option<u32>
    ensures value { MatchOption result ((number : ℕ) → number < 2 ^ 32 → value.now ≢ decimal number) (λ number. value.now ≡ decimal number) }
{
    match value.parse::<u32>() {
        Ok(number) => {
            if Buffer::new().format(number) == value {
                Some(number)
            } else {
                None
            }
        }
        Err(_) => None,
    }
}

/// Whether a text is the decimal of a number from one to another, without sign or leading zero.
fn is_number(low: u32, high: u32, value: &str) -> bool
    requires order { low ≤ high }
    ensures { result ≡ is_number low high value.now }
{
    match number_in(value) {
        Some(number) => low <= number && number <= high,
        None => false,
    }
}

/// Whether a text is of the form, besides being a value.
pub(crate) fn has_form(form: ValueForm, value: &str) -> bool
    ensures { result ≡ has_form form value.now }
{
    match form {
        ValueForm::File | ValueForm::Pin | ValueForm::Name => true,
        ValueForm::Effort => value == "order" || value == "full",
        ValueForm::Device => value == "hold" || value == "mix",
        ValueForm::Rounds => is_number(0, 1000, value),
        ValueForm::Units => is_number(8, 16384, value),
    }
}

/// Whether both are files, or both are pins.
pub(crate) fn is_like(form: ValueForm, other: ValueForm) -> bool
    ensures { result ≡ is_like form other }
{
    match form {
        ValueForm::File => matches!(other, ValueForm::File),
        ValueForm::Pin => matches!(other, ValueForm::Pin),
        _ => false,
    }
}
