//! Where lines are put into a Verilog text.
ghost use Rattle.std.specs.Prelude.{◌≡◌, ◌<◌, ◌^◌, length};
ghost use Rattle.verilog_syntax.specs.Laws.{tokens_in};
ghost use Rattle.verilog_writer.specs.Inserted.{header_end, last_start};

use verilog_syntax::verilog_lexer;

/// Where the first semicolon of a text of less than 4 GiB ends: behind the header. 0 where there is none.
pub(crate) fn header_end(text: &[u8]) -> u32
    requires small { length text.now < 2 ^ 32 }
    ensures value { result ≡ header_end (tokens_in text.now) }
{
    let mut tokens = verilog_lexer(text);
    while let Some(token) = tokens.next() {
        if token.text == b";".as_slice() {
            return token.span.end;
        }
    }
    0
}

/// Where the last token of a text of less than 4 GiB begins: `endmodule`. 0 where there is none.
pub(crate) fn last_start(text: &[u8]) -> u32
    requires small { length text.now < 2 ^ 32 }
    ensures value { result ≡ last_start (tokens_in text.now) }
{
    let mut tokens = verilog_lexer(text);
    let mut last = 0;
    while let Some(token) = tokens.next() {
        last = token.span.start;
    }
    last
}
