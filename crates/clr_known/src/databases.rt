//! A database whose register is known: that of JONES/1 with its first step done.
ghost use Rattle.std.specs.Prelude.{◌≡◌, ◌++◌, ◌∷◌, [], false, IfErr, IfOk, IfSome, None, Ok, OnOk};
ghost use Rattle.sqlite.specs.Held.{state};
ghost use Rattle.sqlite.specs.State.{HasCleanDisk};
ghost use Rattle.clr_rules.specs.Good.{IsGood};
ghost use Rattle.clr_rules.specs.Run.{IsReached};
ghost use Rattle.clr_examples.specs.Worked.{worked_net, worked_opening, worked_staff};
ghost use Rattle.clr_rules.specs.declared.command.Command.{Command as AnyCommand};
ghost use Rattle.clr_load.specs.Contract.{IsSaved};
ghost use Rattle.clr_load.specs.Stored.{HasTables};
ghost use Rattle.clr_load.specs.Tables.{tables_of};
ghost use Rattle.clr_load.specs.TypedRows.{IsTyped};
ghost use Rattle.clr_text.specs.Lines.{commands_in};
ghost use Rattle.clr_text.specs.Reading.{read_command};
ghost use Rattle.clr_edge.specs.Database.{HasRegister};
ghost use Rattle.clr_known.specs.Known.{jones_lines, jones_register};

use crate::blank::Blank;
use crate::machine::Known;
use clr_desk::Desk;
use clr_edge::database::{Databases, Makes};
use clr_edge::fault::{DatabaseFault, Fault};
use clr_edge::files::{points_from, sections_from, staff_from};
use clr_net::Network;
use clr_rules::Command;
use clr_staff::Staff;
use clr_store::Store;
use clr_stream::Counted;
use clr_text::{TextFault, command_of};
use sqlite::{Alter, Connection};
use std::alloc::Global;

pub const SECTIONS: &[u8] = b"section,source\nG,yes\nL1,no\nL2,no\nL3,no\nH,yes\n";

pub const POINTS: &[u8] = b"point,from,to,lockable,remote,position
S1,G,L1,yes,no,closed
S2,L1,L2,yes,no,closed
S3,L2,L3,yes,no,closed
S4,L3,H,yes,yes,closed
T1,L1,L3,no,no,open
";

pub const STAFF: &[u8] = b"employee,role,supervisor
OPS,operator,
REED,field,
DALE,field,
JONES,charge,BOSS
KIM,charge,
BOSS,charge,
";

/// The database at `jones.db` has that register, and no other is there. None keeps what is written
/// to it.
impl<B: Blank + Drop> Databases for Known<B> {
    ghost use Rattle.std.specs.Prelude.{◌≡◌};
    ghost use Rattle.clr_edge.specs.Database.{HasRegister};
    ghost use Rattle.clr_known.specs.Known.{jones_register};

    type Tables = B::Tables;

    ghost opens = { λ old _ connection new.
        (new ≡ old) × HasRegister B.Tables.Store jones_register connection };

    ghost shuts = { λ old _ _ new. new ≡ old };

    ghost ends = { λ old _ _ new. new ≡ old };

    fn stored(&mut self, path: &str) -> Result<Connection<B::Tables>, DatabaseFault>
        ensures opens { IfOk result (λ connection.
            (self.new ≡ self.old) × HasRegister B.Tables.Store jones_register connection) }
        ensures mode { IfOk result (λ connection. connection.in_transaction ≡ false) }
        ensures shuts { IfErr result (λ _. self.new ≡ self.old) }
    {
        if path == "jones.db" {
            jones_database(self.alloc, &self.blank)
        } else {
            Err(DatabaseFault::Sql)
        }
    }

    fn end(&mut self, place: &mut Option<Connection<B::Tables>>) -> Result<(), DatabaseFault>
        ensures ends { IfSome place.old (λ _. self.new ≡ self.old) }
        ensures none { place.old ≡ None → self.new ≡ self.old }
        ensures taken { place.new ≡ None }
    {
        self.blank.close(place)
    }
}

/// A database that is made is empty.
impl<B: Blank + Drop> Makes for Known<B> {
    ghost use Rattle.std.specs.Prelude.{◌≡◌};

    ghost makes = { λ old _ _ new. new ≡ old };

    fn database(&mut self, _path: &str) -> Result<Connection<B::Tables>, DatabaseFault>
        ensures makes { IfOk result (λ _. self.new ≡ self.old) }
        ensures mode { IfOk result (λ connection. connection.in_transaction ≡ false) }
        ensures shuts { IfErr result (λ _. self.new ≡ self.old) }
    {
        self.blank.empty(self.alloc)
    }
}

/// A database that has the register of JONES/1.
fn jones_database<B: Blank>(
    alloc: Global,
    blank: &B,
) -> Result<Connection<B::Tables>, DatabaseFault>
    ensures register { IfOk result (λ connection.
        HasRegister B.Tables.Store jones_register connection) }
    ensures mode { IfOk result (λ connection. connection.in_transaction ≡ false) }
{
    let connection = blank.empty(alloc)?;
    match jones_made(alloc, connection) {
        Ok(connection) => Ok(connection),
        Err(Fault::Memory) => Err(DatabaseFault::NoMemory),
        Err(_) => Err(DatabaseFault::Sql),
    }
}

/// An empty database, once it has that register.
fn jones_made<S: Alter + Drop>(
    alloc: Global,
    connection: Connection<S>,
) -> Result<Connection<S>, Fault>
    ensures register { IfOk result (λ made. HasCleanDisk (state S.Store made)
        → HasRegister S.Store jones_register made) }
    ensures mode { IfOk result (λ made. made.in_transaction ≡ false) }
{
    match jones_desk(alloc, connection) {
        Ok(desk) => Ok(desk.end().end()),
        Err(fault) => Err(fault),
    }
}

/// A desk over it.
fn jones_desk<S: Alter + Drop>(
    alloc: Global,
    connection: Connection<S>,
) -> Result<Desk<Store<S>>, Fault>
    ensures good { OnOk result (IsGood jones_register) }
    ensures reached { OnOk result (IsReached jones_register) }
    ensures typed { OnOk result (IsTyped jones_register) }
    ensures tables { IfOk result (λ desk. HasCleanDisk (state S.Store desk.store)
        → HasTables (state S.Store desk.store).now (tables_of jones_register)) }
{
    let mut desk = opening_desk(alloc, connection)?;
    let commands = jones_commands(alloc)?;
    match desk.run(commands).fault {
        None => Ok(desk),
        Some(fault) => Err(Fault::from(fault)),
    }
}

/// A desk over a new database with the opening register of the worked network.
fn opening_desk<S: Alter + Drop>(
    alloc: Global,
    connection: Connection<S>,
) -> Result<Desk<Store<S>>, Fault>
    ensures register { IfOk result (λ desk. desk.book.register ≡ worked_opening) }
    ensures good { OnOk result (IsGood worked_opening) }
    ensures reached { OnOk result (IsReached worked_opening) }
    ensures typed { OnOk result (IsTyped worked_opening) }
    ensures made { IfOk result (λ desk. HasCleanDisk (state S.Store desk.store)
        → IsSaved (state S.Store desk.store)
        × HasTables (state S.Store desk.store).now (tables_of worked_opening)) }
{
    let network = worked_network(alloc)?;
    let staff = worked_staff(alloc)?;
    network.is_network();
    staff.is_staff();
    match Desk::create(alloc, connection, network, staff) {
        Ok(desk) => Ok(desk),
        Err((fault, _)) => Err(Fault::from(fault)),
    }
}

fn worked_network(alloc: Global) -> Result<Network, Fault>
    ensures { IfOk result (λ network. network ≡ worked_net) }
{
    let sections = sections_from(alloc, &mut Counted::new(SECTIONS))?;
    let points = points_from(alloc, &mut Counted::new(POINTS))?;
    let network = Network::build(alloc, sections, points)?;
    Ok(network)
}

fn worked_staff(alloc: Global) -> Result<Staff, Fault>
    ensures { IfOk result (λ staff. staff ≡ worked_staff) }
{
    let rows = staff_from(alloc, &mut Counted::new(STAFF))?;
    let staff = Staff::build(alloc, rows)?;
    Ok(staff)
}

/// JONES asks for L2, OPS orders it, and REED does the first step.
fn jones_commands(alloc: Global) -> Result<Vec<Command>, Fault>
    ensures { IfOk result (λ commands. commands.items ≡ commands_in jones_lines) }
{
    let mut commands = Vec::new(alloc);
    say(
        alloc,
        &mut commands,
        r#"{"at":100,"by":"JONES","do":"request","section":"L2"}"#,
    )?;
    say(
        alloc,
        &mut commands,
        r#"{"at":101,"by":"OPS","clearance":"JONES/1","do":"order","points":["S2","S3"],"steps":["OPEN S2","OPEN S3","BLOCK S2","BLOCK S3","TAG S2","TAG S3"]}"#,
    )?;
    say(
        alloc,
        &mut commands,
        r#"{"at":102,"by":"OPS","clearance":"JONES/1","do":"instruct","step":1}"#,
    )?;
    say(
        alloc,
        &mut commands,
        r#"{"at":103,"by":"REED","clearance":"JONES/1","do":"repeat","step":1,"text":"OPEN S2"}"#,
    )?;
    say(
        alloc,
        &mut commands,
        r#"{"at":104,"by":"REED","clearance":"JONES/1","do":"report","done":true,"step":1}"#,
    )?;
    Ok(commands)
}

/// Adds the command of a line.
fn say(alloc: Global, commands: &mut Vec<Command>, line: &str) -> Result<(), Fault>
    ensures { OnOk result ((q : AnyCommand) × (read_command line.now ≡ Ok q)
        × (commands.new.items ≡ commands.old.items ++ q ∷ [])) }
{
    match command_of(alloc, line.as_bytes()) {
        Ok(command) => commands.push(command)?,
        Err(TextFault::NoMemory) => return Err(Fault::Memory),
        Err(_) => return Err(Fault::NoSuch),
    }
    Ok(())
}
