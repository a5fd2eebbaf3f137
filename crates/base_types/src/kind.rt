ghost use Rattle.std.specs.Prelude.{◌≡◌};
ghost use Rattle.base_types.specs.Faults.{number_of, kind_name};

use std::fmt;

/// The kinds of faults, in the order in which they are answered: of two that hold, the one with the lesser number.
#[derive(Clone, Copy, Debug, PartialEq, Eq)]
pub enum Kind {
    /// The file has more bytes than its limit, or the head of patterns that come in pieces doesn't show within it; of several the
    /// one that is taken first.
    FileSize,
    /// The table is no TOML text.
    TableSyntax,
    /// The entry of a cell isn't of the form of a cell's entry; of several cells the one with the least name by bytes, and the
    /// empty name where the table's top isn't of its form.
    TableShape,
    /// A statement that is read matches no form, a macro has no SIZE, or a block isn't closed.
    LefSyntax,
    /// A decimal that is read has more than six fraction digits or exceeds 2 metres in size.
    LefNumber,
    /// A macro name, or a pin name in one macro, stands a second time.
    LefTwice,
    /// A statement matches no form, or the module isn't closed.
    VerilogSyntax,
    /// The first token after `endmodule` is `module`.
    SecondModule,
    /// An index exceeds 65535, or a constant's size exceeds 128 or is 0, or with this declaration the declared vectors have
    /// more than 16777216 bits together, a name being counted once, by its first declaration with a range.
    VerilogNumber,
    /// An instance, a pin of one instance, a header port or a declared net has a plain name that stood before, or a scalar net
    /// and a bit of a declared vector have one plain name (at the later of the two); a port declared again as `wire` with the
    /// same range is no fault.
    VerilogTwice,
    /// A select lies outside its declaration or selects from a name that is no declared vector, or the two sides of an assign
    /// differ in width, or a header port has no direction, or a name with a direction isn't in the header.
    BadSelect,
    /// A statement of a read section matches no form, a section isn't closed, UNITS stands a second time, or UNITS or
    /// END DESIGN is missing.
    DefSyntax,
    /// A coordinate lies outside -2147483648 to 2147483647, BITS or MAXBITS exceeds 262144, or UNITS isn't 1 to 100000.
    DefNumber,
    /// A component, design pin, net or chain name, or a read section, or one `( comp pin )` over all nets stands a second time.
    DefTwice,
    /// An element, or a START or STOP cell, is no component, or its cell isn't in the table.
    ElementUnknown,
    /// An element with the same component and scan path stands a second time in the chains.
    ElementTwice,
    /// An element, or a START or STOP cell, isn't placed.
    ElementUnplaced,
    /// An explicit IN, OUT or start or stop pin isn't such a pin of a scan path of the cell, or IN and OUT belong to two paths,
    /// or a cell with several paths gets no pin that names one.
    ElementPin,
    /// An explicit BITS isn't the count of the element's path.
    BitsDiffer,
    /// The cell of an element, or of a START or STOP, has no LEF macro.
    NoMacro,
    /// The chains up to and with this one have more than 65536 elements.
    TooManyElements,
    /// The instance is no component.
    InstanceMissing,
    /// The instance's cell differs from the component's.
    CellDiffers,
    /// The pins of this net that the Verilog connects too aren't all joined there, or are joined with those of an earlier net.
    NetDiffers,
    /// A statement of the head matches no form, or the head has no ScanStructures.
    StilSyntax,
    /// A chain name, a port among all ScanIn and ScanOut together, a procedure name or a macro name stands a second time.
    StilTwice,
    /// The head holds a form that this profile doesn't support.
    Unsupported,
    /// The port at START PIN is no declared ScanIn, or that at STOP PIN no declared ScanOut.
    ChainUndeclared,
    /// A scan-in isn't an input or inout port bit, or a scan-out isn't an output or inout port bit.
    NoPort,
    /// The 257th path is asked for.
    TooManyPaths,
    /// A sink met by a trace has no source.
    NoDriver,
    /// A sink met by a trace has two or more sources.
    TwoDrivers,
    /// A trace meets this instance's scan path a second time.
    Loop,
    /// This instance's scan path stands on two traced paths.
    SharedCell,
    /// The path begins at another port than the declared scan-in.
    WrongPort,
    /// The path's bits aren't ScanLength.
    LengthDiffers,
    /// ScanInversion stands there and isn't the path's parity.
    InversionDiffers,
    /// Some chains have ScanCells and this one hasn't, or its list doesn't name the path's bits in order.
    CellsDiffer,
    /// The traced paths have more than 262144 bits.
    TooManyBits,
    /// An in pin, a used out pin or a port of a traced path is in no DEF net, or the port is no design pin, or its design pin
    /// names another net than the one that has it.
    PinMissing,
    /// The chain's elements, START and STOP are no stretch of one path, or share a step with another chain's stretch or ends.
    NotAStretch,
    /// An unlisted step inside the stretch has a bit.
    UnlistedBits,
    /// An ORDERED list isn't found in its order with only unlisted steps between.
    OrderBroken,
    /// MAXBITS is above 0 and the chain's bits as read exceed it.
    OverMaxBits,
    /// An unlisted cell of a traced path isn't placed or has no macro.
    PlaceUnknown,
    /// With this chain its partition has more than 16384 units.
    TooManyUnits,
    /// A statement in the pattern part matches no form, a Pattern isn't closed, or a scan call gives one name twice.
    PatternSyntax,
    /// A statement of the pattern part has a form that this profile doesn't support.
    PatternUnsupported,
    /// Scan data holds another character or escape than its alphabet and `\r n c`.
    ScanCharacter,
    /// A scan call gives data to a name that is no chain's ScanIn or ScanOut, a group included.
    ForeignData,
    /// The call shifts at least once and fewer times than the longest chain has bits.
    ShortLoad,
    /// An `L` or `H` stands at an index that isn't below its chain's bits.
    LongCompare,
    /// A string of a scan call is longer than 524288.
    TooManyShifts,
    /// A statement of a Pattern, a statement at the top behind the head but a Pattern, a Pattern up to its `{`, or one without
    /// a `{` has more than 67108864 bytes.
    StatementSize,
    /// With this statement the whole STIL has more than 4294967296 bytes.
    PatternSize,
    /// The given names aren't the traced instances, each once.
    NotPermutation,
    /// The last unit is pinned and another name is given last.
    PinnedLast,
    /// The two sets of files don't mean the same.
    NotSame,
    /// A line of the log isn't four decimals without sign that single blanks part, or one of them exceeds 9223372036854775807.
    LogSyntax,
    /// A line of the log names no pattern, run scan, chain or index of the new patterns, or a place at which nothing is expected.
    LogPlace,
    /// The four numbers of a line of the log stand in an earlier line.
    LogTwice,
}

impl Kind {
    /// The number by which kinds are compared.
    pub fn number(self) -> u8
        ensures value { result ≡ number_of self }
    {
        match self {
            Kind::FileSize => 0,
            Kind::TableSyntax => 1,
            Kind::TableShape => 2,
            Kind::LefSyntax => 10,
            Kind::LefNumber => 11,
            Kind::LefTwice => 12,
            Kind::VerilogSyntax => 20,
            Kind::SecondModule => 21,
            Kind::VerilogNumber => 22,
            Kind::VerilogTwice => 23,
            Kind::BadSelect => 24,
            Kind::DefSyntax => 30,
            Kind::DefNumber => 31,
            Kind::DefTwice => 32,
            Kind::ElementUnknown => 33,
            Kind::ElementTwice => 34,
            Kind::ElementUnplaced => 35,
            Kind::ElementPin => 36,
            Kind::BitsDiffer => 37,
            Kind::NoMacro => 38,
            Kind::TooManyElements => 39,
            Kind::InstanceMissing => 40,
            Kind::CellDiffers => 41,
            Kind::NetDiffers => 42,
            Kind::StilSyntax => 50,
            Kind::StilTwice => 51,
            Kind::Unsupported => 52,
            Kind::ChainUndeclared => 53,
            Kind::NoPort => 58,
            Kind::TooManyPaths => 59,
            Kind::NoDriver => 60,
            Kind::TwoDrivers => 61,
            Kind::Loop => 62,
            Kind::SharedCell => 63,
            Kind::WrongPort => 64,
            Kind::LengthDiffers => 65,
            Kind::InversionDiffers => 66,
            Kind::CellsDiffer => 67,
            Kind::TooManyBits => 68,
            Kind::PinMissing => 69,
            Kind::NotAStretch => 70,
            Kind::UnlistedBits => 71,
            Kind::OrderBroken => 72,
            Kind::OverMaxBits => 73,
            Kind::PlaceUnknown => 74,
            Kind::TooManyUnits => 75,
            Kind::PatternSyntax => 80,
            Kind::PatternUnsupported => 81,
            Kind::ScanCharacter => 82,
            Kind::ForeignData => 83,
            Kind::ShortLoad => 84,
            Kind::LongCompare => 85,
            Kind::TooManyShifts => 86,
            Kind::StatementSize => 87,
            Kind::PatternSize => 88,
            Kind::NotPermutation => 91,
            Kind::PinnedLast => 92,
            Kind::NotSame => 93,
            Kind::LogSyntax => 94,
            Kind::LogPlace => 95,
            Kind::LogTwice => 96,
        }
    }

    /// The name that is printed.
    pub fn name(self) -> &'static str
        ensures value { result.now ≡ kind_name self }
    {
        match self {
            Kind::FileSize => "FileSize",
            Kind::TableSyntax => "TableSyntax",
            Kind::TableShape => "TableShape",
            Kind::LefSyntax => "LefSyntax",
            Kind::LefNumber => "LefNumber",
            Kind::LefTwice => "LefTwice",
            Kind::VerilogSyntax => "VerilogSyntax",
            Kind::SecondModule => "SecondModule",
            Kind::VerilogNumber => "VerilogNumber",
            Kind::VerilogTwice => "VerilogTwice",
            Kind::BadSelect => "BadSelect",
            Kind::DefSyntax => "DefSyntax",
            Kind::DefNumber => "DefNumber",
            Kind::DefTwice => "DefTwice",
            Kind::ElementUnknown => "ElementUnknown",
            Kind::ElementTwice => "ElementTwice",
            Kind::ElementUnplaced => "ElementUnplaced",
            Kind::ElementPin => "ElementPin",
            Kind::BitsDiffer => "BitsDiffer",
            Kind::NoMacro => "NoMacro",
            Kind::TooManyElements => "TooManyElements",
            Kind::InstanceMissing => "InstanceMissing",
            Kind::CellDiffers => "CellDiffers",
            Kind::NetDiffers => "NetDiffers",
            Kind::StilSyntax => "StilSyntax",
            Kind::StilTwice => "StilTwice",
            Kind::Unsupported => "Unsupported",
            Kind::ChainUndeclared => "ChainUndeclared",
            Kind::NoPort => "NoPort",
            Kind::TooManyPaths => "TooManyPaths",
            Kind::NoDriver => "NoDriver",
            Kind::TwoDrivers => "TwoDrivers",
            Kind::Loop => "Loop",
            Kind::SharedCell => "SharedCell",
            Kind::WrongPort => "WrongPort",
            Kind::LengthDiffers => "LengthDiffers",
            Kind::InversionDiffers => "InversionDiffers",
            Kind::CellsDiffer => "CellsDiffer",
            Kind::TooManyBits => "TooManyBits",
            Kind::PinMissing => "PinMissing",
            Kind::NotAStretch => "NotAStretch",
            Kind::UnlistedBits => "UnlistedBits",
            Kind::OrderBroken => "OrderBroken",
            Kind::OverMaxBits => "OverMaxBits",
            Kind::PlaceUnknown => "PlaceUnknown",
            Kind::TooManyUnits => "TooManyUnits",
            Kind::PatternSyntax => "PatternSyntax",
            Kind::PatternUnsupported => "PatternUnsupported",
            Kind::ScanCharacter => "ScanCharacter",
            Kind::ForeignData => "ForeignData",
            Kind::ShortLoad => "ShortLoad",
            Kind::LongCompare => "LongCompare",
            Kind::TooManyShifts => "TooManyShifts",
            Kind::StatementSize => "StatementSize",
            Kind::PatternSize => "PatternSize",
            Kind::NotPermutation => "NotPermutation",
            Kind::PinnedLast => "PinnedLast",
            Kind::NotSame => "NotSame",
            Kind::LogSyntax => "LogSyntax",
            Kind::LogPlace => "LogPlace",
            Kind::LogTwice => "LogTwice",
        }
    }
}

impl fmt::Display for Kind {
    ghost use Rattle.std.specs.Prelude.{Some};
    ghost use Rattle.base_types.specs.Faults.{kind_name};

    ghost output = { λ kind. Some (kind_name kind) };

    fn fmt<W: fmt::Write>(&self, f: &mut fmt::Formatter<W>) -> Result<(), fmt::Error> {
        f.write_str(self.name())
    }
}
