// The attributes of a tag of the fair copy, by the rows of its node.
ghost use Rattle.std.specs.Prelude.{◌≡◌, is_ok, Some, None, MatchOption};
ghost use Rattle.rules.specs.Grounds.{rows as rows_of};
ghost use Rattle.rules.specs.Markup.{attributes_text};
ghost use Rattle.rules.specs.Texts.{fair_attributes};
ghost use Rattle.schema.specs.Meant.{row_meant};
ghost use Rattle.sinks.specs.Writers.{Written};
ghost use Rattle.reader.specs.Slots.{lent};
ghost use Rattle.fair.specs.Rows.{namespace_text, given_value, row_values, row_text};

use crate::values::write_attribute;
use reader::LentSlots;
use rules::{FixedText, Kind, Node};
use schema::{Row, rows};
use sinks::{Refused, Writer};

/// The text of the namespace that a kind fixes.
fn namespace(kind: Kind) -> Option<&'static [u8]>
    ensures { MatchOption result (namespace_text kind ≡ None) (λ t. namespace_text kind ≡ Some t.now) }
{
    match kind {
        Kind::Fixed(FixedText::Version) => None,
        Kind::Fixed(text) => Some(text.text()),
        _ => None,
    }
}

/// Writes the attribute of a row: the text of its namespace, or the kept form of its raw value, if it has either.
fn write_row<W: Writer>(to: &mut W, row: Row, raw: Option<&[u8]>) -> Result<(), Refused>
    ensures { Written W.Writer.writing to.old (row_text (row_meant row) (given_value (row_meant row) (lent raw.entry))) (is_ok result) to.new }
{
    match namespace(row.kind).or(raw) {
        Some(text) => write_attribute(to, row.name, text),
        None => Ok(()),
    }
}

/// Writes the attributes of a node's tag: its namespaces, and then those that its slots hold, in table order.
pub fn write_attributes<W: Writer>(to: &mut W, node: Node, slots: &LentSlots) -> Result<(), Refused>
    ensures { Written W.Writer.writing to.old (attributes_text (fair_attributes (rows_of node) (row_values slots.now.document.now (rows_of node) slots.now.spans))) (is_ok result) to.new }
{
    for (i, row) in rows(node).iter().enumerate() {
        write_row(to, *row, slots.raw(i))?;
    }
    Ok(())
}
