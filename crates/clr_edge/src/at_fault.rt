//! The table at fault of a register that is not good and staffed.
ghost use Rattle.std.specs.Prelude.{◌≡◌, ◌↔◌, None, IfOk, option_map};
ghost use Rattle.clr_rules.specs.Fit.{IsFit};
ghost use Rattle.clr_edge.specs.AtFault.{table_at_fault, table_of_list};

use clr_desk::DeskBook;
use clr_good::{ListAtFault, list_at_fault};
use clr_load::TableName;
use std::alloc::{AllocError, Global};

/// The first table of a book, in the order of points, clearances, steps and holds, whose rows do
/// not fit the others or the staff; none exactly where the register is good and staffed.
pub(crate) fn table_in(alloc: Global, book: &DeskBook) -> Result<Option<TableName>, AllocError>
    ensures good { IfOk result (λ table. (table ≡ None) ↔ IsFit book.now.register) }
    ensures first { IfOk result (λ table. table ≡ table_at_fault book.now.register) }
{
    let list = list_at_fault(alloc, book)?;
    Ok(table_of(list))
}

/// The table that a list is read from.
fn table_of(list: Option<ListAtFault>) -> Option<TableName>
    ensures { result ≡ option_map table_of_list list }
{
    match list {
        Some(ListAtFault::Points) => Some(TableName::NetworkPoint),
        Some(ListAtFault::Clearances) => Some(TableName::Clearance),
        Some(ListAtFault::Steps) => Some(TableName::Step),
        Some(ListAtFault::Holds) => Some(TableName::Hold),
        None => None,
    }
}
