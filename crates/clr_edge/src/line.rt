//! The line of a fault. It is made whole, in place, before any of it is written.
ghost use Rattle.std.specs.Prelude.{◌≡◌, ◌+◌, ◌++◌, ◌≤◌, codes, decimal, length};
ghost use Rattle.std.specs.Fmt.{signed_decimal};
ghost use Rattle.clr_rules.specs.HoldKind.{hold_kind_text};
ghost use Rattle.clr_rules.specs.Id.{id_text};
ghost use Rattle.clr_load.specs.TableText.{table_text};
ghost use Rattle.clr_verify.specs.declared.registers.Difference.TheVariants as row;
ghost use Rattle.arrayvec.specs.ArrayString.{array_string_len};
ghost use Rattle.clr_edge.specs.Fault.{detail_text, key_text, table_of, told_line};

use crate::fault::{Detail, Fault};
use arrayvec::ArrayString;
use clr_load::TableName;
use clr_net::Name;
use clr_rules::{ClearanceId, Hold, HoldKind, StepKey};
use clr_verify::Difference;
use itoa::Buffer;

/// Room for the longest line, which names a row of a table by its key.
pub const LINE_BYTES: usize = 144;

/// A line, in place.
pub type Line = ArrayString<LINE_BYTES>;

/// The line of a fault, with its line feed. It takes no memory, since it may say that memory ran
/// out.
pub fn line_of(fault: &Fault) -> Line
    ensures { result.bytes ≡ told_line fault.now }
{
    let mut line = Line::new();
    line.push_str("fault: ");
    line.push_str(fault.subject());
    line.push_str(" ");
    line.push_str(fault.name());
    push_detail(&mut line, fault.detail());
    line.push_str("\n");
    line
}

/// Adds where a fault is, or what it names.
fn push_detail(line: &mut Line, detail: Detail)
    requires { array_string_len line.old + 104 ≤ 144 }
    ensures text { line.new.bytes ≡ line.old.bytes ++ detail_text detail }
    ensures short { array_string_len line.new ≤ array_string_len line.old + 104 }
{
    match detail {
        Detail::Nothing => {}
        Detail::Row(row) => push_number(line, " row ", row),
        Detail::Field(row, column) => {
            push_number(line, " row ", row);
            push_number(line, " column ", column);
        }
        Detail::Place(place) => push_number(line, " place ", place),
        Detail::Named(name) => push_name(line, name),
        Detail::Version(version) => push_version(line, version),
        Detail::Table(table) => {
            line.push_str(" ");
            line.push_str(table_word(table));
        }
        Detail::Number(number) => push_count(line, number),
        Detail::Differs(found) => push_difference(line, &found),
        Detail::NeededBy(name, id) => push_needed(line, name, id),
    }
}

/// Adds the table and the key of a row that differs.
fn push_difference(line: &mut Line, found: &Difference)
    requires { array_string_len line.old + 104 ≤ 144 }
    ensures text { line.new.bytes ≡ line.old.bytes
        ++ ((codes " " ++ table_text (table_of found.now)) ++ key_text found.now) }
    ensures short { array_string_len line.new ≤ array_string_len line.old + 104 }
{
    line.push_str(" ");
    line.push_str(table_word(table_of(found)));
    push_key(line, found);
}

/// The table of a row that differs.
fn table_of(found: &Difference) -> TableName
    ensures { result ≡ table_of found.now }
{
    match found {
        Difference::Section(_) => TableName::Section,
        Difference::Point(_) => TableName::NetworkPoint,
        Difference::Staff(_) => TableName::Staff,
        Difference::Clearance(_) => TableName::Clearance,
        Difference::Step(_) => TableName::Step,
        Difference::Hold(_) => TableName::Hold,
    }
}

/// Adds the key of a row that differs, each part after a blank.
fn push_key(line: &mut Line, found: &Difference)
    requires { array_string_len line.old + 90 ≤ 144 }
    ensures text { line.new.bytes ≡ line.old.bytes ++ key_text found.now }
    ensures short { array_string_len line.new ≤ array_string_len line.old + 90 }
{
    match *found {
        Difference::Section(name) | Difference::Point(name) | Difference::Staff(name) => {
            push_name(line, name);
        }
        Difference::Clearance(id) => push_id(line, id),
        Difference::Step(key) => push_step(line, key),
        Difference::Hold(key) => push_hold(line, key),
    }
}

/// Adds the key of a step.
fn push_step(line: &mut Line, key: StepKey)
    requires { array_string_len line.old + 90 ≤ 144 }
    ensures text { line.new.bytes ≡ line.old.bytes ++ key_text (row.Step key) }
    ensures short { array_string_len line.new ≤ array_string_len line.old + 90 }
{
    push_id(line, key.id);
    push_count(line, u64::from(key.round));
    push_count(line, u64::from(key.ordinal));
}

/// Adds the key of a hold.
fn push_hold(line: &mut Line, key: Hold)
    requires { array_string_len line.old + 90 ≤ 144 }
    ensures text { line.new.bytes ≡ line.old.bytes ++ key_text (row.Hold key) }
    ensures short { array_string_len line.new ≤ array_string_len line.old + 90 }
{
    line.push_str(" ");
    line.push_str(kind_word(key.kind));
    push_name(line, key.place);
    push_id(line, key.id);
}

/// Adds a row, and the clearance that needs it.
fn push_needed(line: &mut Line, name: Name, id: ClearanceId)
    requires { array_string_len line.old + 90 ≤ 144 }
    ensures text { line.new.bytes ≡ line.old.bytes
        ++ ((codes " " ++ name) ++ (codes " by" ++ (codes " " ++ id_text id))) }
    ensures short { array_string_len line.new ≤ array_string_len line.old + 90 }
{
    push_name(line, name);
    line.push_str(" by");
    push_id(line, id);
}

/// The word of a kind of hold.
fn kind_word(kind: HoldKind) -> &'static str
    ensures text { result.now ≡ hold_kind_text kind }
    ensures short { length result.now ≤ 8 }
{
    kind.text()
}

/// Adds a name, after a blank.
fn push_name(line: &mut Line, name: Name)
    requires { array_string_len line.old + 25 ≤ 144 }
    ensures text { line.new.bytes ≡ line.old.bytes ++ (codes " " ++ name) }
    ensures short { array_string_len line.new ≤ array_string_len line.old + 25 }
{
    line.push_str(" ");
    line.push_str(name.as_str());
}

/// Adds a clearance, after a blank.
fn push_id(line: &mut Line, id: ClearanceId)
    requires { array_string_len line.old + 46 ≤ 144 }
    ensures text { line.new.bytes ≡ line.old.bytes ++ (codes " " ++ id_text id) }
    ensures short { array_string_len line.new ≤ array_string_len line.old + 46 }
{
    let mut digits = Buffer::new();
    push_name(line, id.requester());
    line.push_str("/");
    line.push_str(digits.format(id.number()));
}

/// Adds a number, after a blank.
fn push_count(line: &mut Line, number: u64)
    requires { array_string_len line.old + 21 ≤ 144 }
    ensures text { line.new.bytes ≡ line.old.bytes ++ (codes " " ++ decimal number) }
    ensures short { array_string_len line.new ≤ array_string_len line.old + 21 }
{
    let mut digits = Buffer::new();
    line.push_str(" ");
    line.push_str(digits.format(number));
}

/// The name that a table has in the database.
fn table_word(table: TableName) -> &'static str
    ensures text { result.now ≡ table_text table }
    ensures short { length result.now ≤ 13 }
{
    table.text()
}

/// Adds a version, after a blank.
fn push_version(line: &mut Line, version: i64)
    requires { array_string_len line.old + 21 ≤ 144 }
    ensures text { line.new.bytes ≡ line.old.bytes ++ (codes " " ++ signed_decimal version) }
    ensures short { array_string_len line.new ≤ array_string_len line.old + 21 }
{
    let mut digits = Buffer::new();
    line.push_str(" ");
    line.push_str(digits.format(version));
}

/// Adds words and a number.
pub fn push_number(line: &mut Line, words: &str, number: usize)
    requires room { array_string_len line.old + length words.now + 20 ≤ 96 }
    ensures text { line.new.bytes ≡ line.old.bytes ++ (words.now ++ decimal number) }
    ensures short { array_string_len line.new
        ≤ array_string_len line.old + length words.now + 20 }
{
    let mut digits = Buffer::new();
    line.push_str(words);
    line.push_str(digits.format(number));
}
