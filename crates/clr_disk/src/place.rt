//! Where a path leads, and whether that is a file of a database.
ghost use Rattle.std.specs.Prelude.{◌≡◌, ◌≢◌, ◌++◌, ℕ, List, None, Ok, Some, false, true};
ghost use Rattle.clr_disk.specs.Place.{IsElsewhere, IsHere, IsOther, IsOwn, IsOwnEnding};
ghost use Rattle.clr_disk.specs.Place.{AreElsewhere, LeadsNowhere};

use crate::system::System;
use std::alloc::{AllocError, Global};
use std::io;

/// What the system knows a file by.
#[derive(Clone, Copy)]
pub struct Node {
    pub device: u64,
    pub number: u64,
}

/// Where a path leads: the path with no link in it, and the file there, if there is one.
#[derive(Drop)]
pub struct Place {
    pub path: String,
    pub node: Option<Node>,
}

/// Whether a path leads to a file of the database at another path: the database file, or one that
/// SQLite keeps beside it, whether that is there or not. A path that leads nowhere does not.
pub fn is_own<Y: System>(
    alloc: Global,
    system: &Y,
    database: &str,
    path: &str,
) -> Result<bool, AllocError>
    ensures own { result ≡ Ok true → IsOwn Y.is_place database.now path.now }
    ensures other { result ≡ Ok false → IsOther Y.is_place Y.lacks_place database.now path.now }
{
    let Some(home) = place_of(system, database)? else {
        return Ok(false);
    };
    let Some(place) = place_of(system, path)? else {
        return Ok(false);
    };
    is_of(alloc, system, home.path.as_str(), &place)
}

/// Where a path leads. `None` where the system does not say.
fn place_of<Y: System>(system: &Y, path: &str) -> Result<Option<Place>, AllocError>
    ensures leads { (place : Place) → result ≡ Ok (Some place) → Y.is_place path.now place }
    ensures nowhere { result ≡ Ok None → LeadsNowhere Y.lacks_place path.now }
{
    match system.place(path) {
        Ok(place) => Ok(Some(place)),
        Err(error) => match error.kind() {
            io::ErrorKind::OutOfMemory => Err(AllocError),
            _ => Ok(None),
        },
    }
}

/// Whether a place is that of a file of the database at another.
fn is_of<Y: System>(
    alloc: Global,
    system: &Y,
    home: &str,
    place: &Place,
) -> Result<bool, AllocError>
    ensures own { result ≡ Ok true → (ending : List ℕ) × IsOwnEnding ending
        × IsHere Y.is_place (home.now ++ ending) place.now }
    ensures other { result ≡ Ok false → AreElsewhere Y.is_place Y.lacks_place
        home.now place.now }
{
    if is_at(alloc, system, home, "", place)? {
        return Ok(true);
    }
    if is_at(alloc, system, home, "-journal", place)? {
        return Ok(true);
    }
    if is_at(alloc, system, home, "-wal", place)? {
        return Ok(true);
    }
    is_at(alloc, system, home, "-shm", place)
}

/// Whether a place is that of the path of a database with this ending.
fn is_at<Y: System>(
    alloc: Global,
    system: &Y,
    home: &str,
    ending: &str,
    place: &Place,
) -> Result<bool, AllocError>
    ensures here { result ≡ Ok true
        → IsHere Y.is_place (home.now ++ ending.now) place.now }
    ensures elsewhere { result ≡ Ok false
        → IsElsewhere Y.is_place Y.lacks_place (home.now ++ ending.now) place.now }
{
    let name = format!(in alloc; "{home}{ending}")?;
    is_here(system, name.as_str(), place)
}

/// Whether a place is that of a path: it is called so, or the same file is there.
fn is_here<Y: System>(system: &Y, name: &str, place: &Place) -> Result<bool, AllocError>
    ensures here { result ≡ Ok true → IsHere Y.is_place name.now place.now }
    ensures elsewhere { result ≡ Ok false
        → IsElsewhere Y.is_place Y.lacks_place name.now place.now }
{
    if place.path.as_str() == name {
        return Ok(true);
    }
    let Some(node) = place.node else {
        return Ok(false);
    };
    match place_of(system, name)? {
        Some(there) => Ok(is_node(there.node, node)),
        None => Ok(false),
    }
}

/// Whether the file at a place is this one.
fn is_node(there: Option<Node>, node: Node) -> bool
    ensures same { result ≡ true → there ≡ Some node }
    ensures other { result ≡ false → there ≢ Some node }
{
    match there {
        Some(other) => other.device == node.device && other.number == node.number,
        None => false,
    }
}
