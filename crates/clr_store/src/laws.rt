//! Laws of the definitions: the contract of each function is the law, and its body is empty.
ghost use Rattle.clr_store.specs.There.{FilesAreNumbered, FilesRise, MetaIsThere, TablesAreThere};

use sqlite_disk::Disk;

/// A database that is laid out as a register has tables, if its rows are whole; one whose first
/// table is `meta` has the rows of that. So a clause that speaks of what a database has speaks of
/// each database that is opened, or refused for its version.
pub fn tables_are_there()
    ensures tables { TablesAreThere }
    ensures meta { MetaIsThere }
{}

/// The rows of a database that was opened in files have numbers that rise. So those of a register
/// are whole unless one lacks a column.
pub fn files_are_numbered<D: Disk>()
    ensures rise { FilesRise D.Disk }
    ensures numbered { FilesAreNumbered D.Disk }
{}
