//! A Verilog text as its statements are taken from it, one after the other.
ghost use Rattle.std.specs.Prelude.{◌≡◌, IfOk};
ghost use Rattle.token_forms.specs.Tokens.{tokens_of, tokens_left, AreSpansOf};
ghost use Rattle.verilog_syntax.specs.Chunks.{chunk_of, step_at};

use crate::Verilog;
use base_types::{NoMemory, Span};
use token_forms::{Cut, Ended, Source, Step};

/// A statement ends with its semicolon, or in front of `endmodule`.
#[derive(Clone, Copy)]
struct Statements {}

impl Cut for Statements {
    ghost step = { λ s text. (step_at text, s) };

    #[inline(always)]
    fn step(&mut self, text: &[u8]) -> Step {
        match text {
            [byte] if *byte == b';' => Step::Closes,
            _ if text == b"endmodule".as_slice() => Step::Stops,
            _ => Step::GoesOn,
        }
    }
}

/// Takes the tokens of the next statement, with what ended them; their spans replace those that stood in the `Vec`.
pub(crate) fn take_statement(
    source: &mut Source<'_, Verilog>,
    spans: &mut Vec<Span>,
) -> Result<Ended, NoMemory>
    ensures source { source.new.source ≡ source.old.source }
    ensures within { IfOk result (λ ended. AreSpansOf source.old.source spans.new.items) }
    ensures value { IfOk result (λ ended. chunk_of (tokens_left source.old)
        ≡ record { ended = ended; taken = tokens_of source.old.source spans.new.items; left = tokens_left source.new }) }
{
    source.statement(Statements {}, spans)
}
