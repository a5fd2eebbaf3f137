//! The pieces of the expressions in Verilog modules.
ghost use Rattle.std.specs.Prelude.{◌<◌, ◌^◌, length};

use base_types::{NoMemory, ReadFault};
use row_forms::{Part, put};
use std::alloc::Global;
use verilog_syntax::{Expression, Item, Placed, Statement, read_statements};

/// The right side of an assign, or the first connection's expression.
fn expression_of<'b, 'a>(placed: &'b Placed<'a>) -> Option<&'b Expression<'a>> {
    match &placed.statement {
        Statement::Assign { right, .. } => Some(right.get()),
        Statement::Instance { connections, .. } => {
            let connection = connections.as_slice().first()?;
            Some(&connection.expression)
        }
        _ => None,
    }
}

fn push_item(text: &mut String, item: &Item) -> Result<(), NoMemory> {
    let (bar, blank) = (Part::Text("|"), Part::Text(" "));
    match item {
        Item::Open => put(text, &[Part::Text("{|")]),
        Item::Comma => put(text, &[Part::Text(",|")]),
        Item::Close => put(text, &[Part::Text("}|")]),
        Item::Name(name) => put(text, &[Part::Text("name "), Part::Word(name.text()), bar]),
        Item::Bit { name, index } => {
            let (name, index) = (Part::Word(name.text()), Part::Word(index.text()));
            put(text, &[Part::Text("bit "), name, blank, index, bar])
        }
        Item::Part { name, left, right } => {
            let name = Part::Word(name.text());
            let (left, right) = (
                Part::Word(left.get().text()),
                Part::Word(right.get().text()),
            );
            put(
                text,
                &[Part::Text("part "), name, blank, left, blank, right, bar],
            )
        }
        Item::Constant(word) => {
            put(
                text,
                &[Part::Text("constant "), Part::Word(word.text()), bar],
            )
        }
    }
}

/// The items of an expression, a bar behind each, and where it stands; of many items their number.
fn push_items(text: &mut String, expression: &Expression) -> Result<(), NoMemory> {
    let items = expression.items.as_slice();
    if items.len() > 100 {
        put(
            text,
            &[Part::Number(items.len() as u64), Part::Text(" items")],
        )?;
    } else {
        for item in items {
            push_item(text, item)?;
        }
    }
    let (start, end) = (
        u64::from(expression.span.start),
        u64::from(expression.span.end),
    );
    let (start, end) = (Part::Number(start), Part::Number(end));
    put(text, &[Part::Text(" at "), start, Part::Text(".."), end])
}

/// The first expression behind the header.
pub(crate) fn items(alloc: Global, source: &[u8]) -> Result<String, ReadFault>
    requires { length source.now < 2 ^ 32 }
{
    let statements = read_statements(alloc, source)?;
    let mut text = String::new(alloc);
    match statements.as_slice().iter().find_map(expression_of) {
        Some(expression) => push_items(&mut text, expression)?,
        None => put(&mut text, &[Part::Text("no expression")])?,
    }
    Ok(text)
}
