//! How the tokens and statements of a text are printed.
ghost use Rattle.token_forms.specs.Tokens.{AreSpansOf};

use crate::parts::{Part, put};
use base_types::{NoMemory, Span};
use std::alloc::Global;
use token_forms::Tokens;

/// The tokens at these places of a text, with a bar behind each; one that is no UTF-8 in hexadecimal. Err where memory is wanted.
pub fn barred(alloc: Global, text: &[u8], spans: &[Span]) -> Result<String, NoMemory>
    requires { AreSpansOf text.now spans.now }
{
    let mut tokens = Tokens::of(text, spans);
    let mut barred = String::new(alloc);
    for _token in 0..spans.len() {
        let Some(token) = tokens.next() else {
            continue;
        };
        match str::from_utf8(token.text) {
            Ok(valid) => barred.push_str(valid)?,
            Err(_) => {
                for byte in token.text {
                    barred.push_str(&format!(in alloc; "\\x{byte:02x}")?)?;
                }
            }
        }
        barred.push_str("|")?;
    }
    Ok(barred)
}

/// How many tokens a statement has, and where it is without its end a question mark. Err where memory is wanted.
pub fn push_size(sizes: &mut String, tokens: &[Span], closed: bool) -> Result<(), NoMemory> {
    let mark = if closed { " " } else { "? " };
    put(
        sizes,
        &[Part::Number(tokens.len() as u64), Part::Text(mark)],
    )
}
