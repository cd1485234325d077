//! The desk: a book, and what keeps its changes.
ghost use Rattle.std.specs.Prelude.{◌≡◌, ◌⊎◌, ◌<◌, false, [], ◌∷◌, length, IfErr, IfOk, IfNone};
ghost use Rattle.std.specs.Prelude.{IfSome, IsErr, IsTrue, MatchResult, None, Ok, Err, true};
ghost use Rattle.std.specs.List.{list_all, list_any};
ghost use Rattle.clr_rules.specs.CrewSafety.{CrewsWorkSafely};
ghost use Rattle.clr_rules.specs.RunHeadline.{IsRun, OthersChangeNoReply, OthersTakeNothing};
ghost use Rattle.clr_rules.specs.RunHeadline.{OwnStandAlone, with_reply};
ghost use Rattle.sqlite.specs.Held.{state};
ghost use Rattle.sqlite.specs.State.{HasCleanDisk, Survives};
ghost use Rattle.clr_rules.specs.Good.{IsGood};
ghost use Rattle.clr_rules.specs.Run.{IsReached};
ghost use Rattle.clr_load.specs.Cause.{SqlHasCause};
ghost use Rattle.clr_load.specs.Contract.{IsSaved};
ghost use Rattle.clr_load.specs.Schema.{no_schema};
ghost use Rattle.clr_load.specs.Stored.{AreTables, HasTables};
ghost use Rattle.clr_desk.specs.Commit.{Stays};
ghost use Rattle.clr_desk.specs.Crash.{LeavesSome};
ghost use Rattle.clr_book.specs.Book.{Shelved};
ghost use Rattle.clr_answer.specs.Decision.{is_accepted};
ghost use Rattle.clr_rules.specs.Register.{Register, opening};
ghost use Rattle.clr_load.specs.declared.fault.StoreFault.{StoreFault};
ghost use Rattle.clr_load.specs.RowsRead.{rows_read};
ghost use Rattle.clr_load.specs.Tables.{Tables, tables_of};
ghost use Rattle.clr_load.specs.TypedRows.{IsTyped, is_typed_command};
ghost use Rattle.clr_desk.specs.Opening.{HasNetworkOf, OpensAs};
ghost use Rattle.clr_desk.specs.Answering.{fault_of, replies_of};
ghost use Rattle.clr_desk.specs.Carrying.{CarriesOut};
ghost use Rattle.clr_desk.specs.Faults.{IsOfCommand, IsOfKeeper, count_after, of_store};
ghost use Rattle.clr_desk.specs.Given.{LeadsTo};
ghost use Rattle.clr_desk.specs.Kept.{Keeps};
ghost use Rattle.clr_desk.specs.NearRun.{IsNearRun, near_network_all};
ghost use Rattle.clr_desk.specs.Taking.{Takes, TakesOne, TakesRun};

use crate::asking::prepare;
use crate::book::{DeskBook, apply, network_and_staff, opening_book};
use crate::commit::{Commit, Unkept};
use crate::desk_fault::DeskFault;
use crate::opening::book_in;
use crate::run::Run;
use crate::typed::{Typed, all_typed};
use clr_answer::Decision;
use clr_net::Network;
use clr_rules::{Command, Reply, Text};
use clr_staff::Staff;
use clr_store::{Back, Store};
use sqlite::{Alter, Connection};
use std::alloc::{AllocError, Global};

/// A book in memory, and what keeps its changes: a store of its tables, or nothing.
#[derive(Drop)]
pub struct Desk<K: Commit> {
    book: DeskBook,
    store: K,
    faults: u64,
}

impl<S: Alter + Drop> Desk<Store<S>> {
    /// Makes the tables of an opening register in an empty database, and opens the desk over them.
    ///
    /// `Store(Sql)` where anything is in the database already, a transaction is open, or the
    /// database fails; `NoMemory` where memory runs out. A fault hands the connection back, with
    /// the database as it was.
    pub fn create(
        alloc: Global,
        connection: Connection<S>,
        network: Network,
        staff: Staff,
    ) -> Result<Desk<Store<S>>, (DeskFault, Connection<S>)>
        ensures register { IfOk result (λ desk. desk.book.register ≡ opening network staff) }
        ensures network { IfOk result (λ desk. desk.book.network ≡ network) }
        ensures reached { IfOk result (λ desk. IsReached desk.book.register) }
        ensures typed { IfOk result (λ desk. IsTyped desk.book.register) }
        ensures faults { IfOk result (λ desk. desk.faults ≡ 0) }
        ensures made { IfOk result (λ desk. HasCleanDisk (state S.Store desk.store)
            → IsSaved (state S.Store desk.store)
            × HasTables (state S.Store desk.store).now (tables_of (opening network staff))) }
        ensures bare { IfOk result (λ _. (state S.Store connection).now.schema ≡ no_schema) }
        ensures inside { connection.in_transaction ≡ true → IsErr result }
        ensures mode { MatchResult result
            (λ desk. desk.store.in_transaction ≡ connection.in_transaction)
            (λ back. back.1.in_transaction ≡ connection.in_transaction) }
        ensures cause { IfErr result (λ back. IsOfCommand back.0) }
        ensures none { IfErr result (λ back. HasCleanDisk (state S.Store back.1)
            → IsTrue (state S.Store back.1).is_open
            → (state S.Store back.1).now ≡ (state S.Store connection).now) }
        ensures crash_made { IfOk result (λ desk. Survives (state S.Store connection)
            (state S.Store desk.store)
            (λ trees. AreTables trees (tables_of (opening network staff)))) }
        ensures crash_none { IfErr result (λ back. Survives (state S.Store connection)
            (state S.Store back.1)
            (λ trees. AreTables trees (tables_of (opening network staff)))) }
    {
        let Ok(book) = opening_book(alloc, network, staff) else {
            return Err((DeskFault::NoMemory, connection));
        };
        let (network, staff) = network_and_staff(&book);
        match Store::create(connection, network, staff) {
            Ok(store) => Ok(Desk::over(book, store)),
            Err(Back { fault, connection }) => Err((DeskFault::from(fault), connection)),
        }
    }

    /// Opens a desk over a store, with the register that its tables have. The tables are only read.
    ///
    /// `Store(BadRow)` names the table with a row that does not read, or whose rows are no network
    /// or no staff; `Store(Sql)` where the database fails; `NoMemory` where memory runs out. A
    /// fault hands the store back.
    pub fn open(mut store: Store<S>) -> Result<Desk<Store<S>>, (DeskFault, Store<S>)>
        ensures opened { IfOk result (λ desk. HasCleanDisk (state S.Store desk.store) → (t : Tables)
            → HasTables (state S.Store store).now t
            → OpensAs (λ (book : Shelved). book.register) (rows_read t) (Ok desk.book)) }
        ensures network { IfOk result (λ desk. HasCleanDisk (state S.Store desk.store)
            → (t : Tables) → HasTables (state S.Store store).now t
            → HasNetworkOf (rows_read t) desk.book.network) }
        ensures again { IfOk result (λ desk. HasCleanDisk (state S.Store desk.store)
            → (R : Register) → IsGood R → HasTables (state S.Store store).now (tables_of R)
            → desk.book.register ≡ R) }
        ensures typed { IfOk result (λ desk. IsTyped desk.book.register) }
        ensures was_open { IfOk result (λ desk. HasCleanDisk (state S.Store desk.store)
            → IsTrue (state S.Store store).is_open) }
        ensures faults { IfOk result (λ desk. desk.faults ≡ 0) }
        ensures saved { IfOk result (λ desk. HasCleanDisk (state S.Store desk.store)
            → IsTrue (state S.Store desk.store).is_open → IsSaved (state S.Store desk.store)) }
        ensures same { IfOk result (λ desk. HasCleanDisk (state S.Store desk.store)
            → IsTrue (state S.Store desk.store).is_open
            → (state S.Store desk.store).now ≡ (state S.Store store).now) }
        ensures survives { IfOk result (λ desk. Survives (state S.Store store)
            (state S.Store desk.store) (λ _. ⊥)) }
        ensures refused { IfErr result (λ back. (fault : StoreFault) × (back.0 ≡ of_store fault)
            × (HasCleanDisk (state S.Store back.1) → (t : Tables)
            → HasTables (state S.Store store).now t
            → OpensAs (λ (book : Shelved). book.register) (rows_read t) (Err fault)
            × SqlHasCause (state S.Store store) (state S.Store back.1) fault)) }
        ensures cause { IfErr result (λ back. HasCleanDisk (state S.Store back.1)
            → (R : Register) → IsGood R → IsTyped R
            → HasTables (state S.Store store).now (tables_of R) → IsOfCommand back.0) }
        ensures shut { IfErr result (λ back. HasCleanDisk (state S.Store back.1)
            → IsTrue (state S.Store store).is_open ⊎ IsOfCommand back.0) }
        ensures kept { IfErr result (λ back. HasCleanDisk (state S.Store back.1)
            → IsTrue (state S.Store back.1).is_open
            → (state S.Store back.1).now ≡ (state S.Store store).now) }
        ensures saved_too { IfErr result (λ back. HasCleanDisk (state S.Store back.1)
            → IsTrue (state S.Store back.1).is_open → IsSaved (state S.Store back.1)) }
        ensures survives_too { IfErr result (λ back. Survives (state S.Store store)
            (state S.Store back.1) (λ _. ⊥)) }
    {
        match book_in(&mut store) {
            Ok(book) => Ok(Desk::over(book, store)),
            Err(fault) => Err((DeskFault::from(fault), store)),
        }
    }
}

impl Desk<Unkept> {
    /// Opens a desk with the opening register, whose changes are kept nowhere.
    pub fn unkept(alloc: Global, network: Network, staff: Staff) -> Result<Desk<Unkept>, AllocError>
        ensures register { IfOk result (λ desk. desk.book.register ≡ opening network staff) }
        ensures network { IfOk result (λ desk. desk.book.network ≡ network) }
        ensures reached { IfOk result (λ desk. IsReached desk.book.register) }
        ensures typed { IfOk result (λ desk. IsTyped desk.book.register) }
        ensures faults { IfOk result (λ desk. desk.faults ≡ 0) }
    {
        let book = opening_book(alloc, network, staff)?;
        Ok(Desk::over(book, Unkept))
    }

    /// Goes on with another book.
    pub(crate) fn go_on_with(&mut self, book: DeskBook)
        ensures { self.new ≡ record self.old { book = book } }
    {
        self.book = book;
    }
}

impl<K: Commit> Desk<K> {
    /// A desk that has met no fault yet.
    fn over(book: DeskBook, store: K) -> Desk<K>
        ensures book { result.book ≡ book }
        ensures store { result.store ≡ store }
        ensures faults { result.faults ≡ 0 }
    {
        Desk::of(book, store, 0)
    }

    /// A desk of a book and of what keeps its changes from here on, which has answered this many
    /// faults.
    pub fn of(book: DeskBook, store: K, faults: u64) -> Desk<K>
        ensures book { result.book ≡ book }
        ensures store { result.store ≡ store }
        ensures faults { result.faults ≡ faults }
    {
        Desk {
            book,
            store,
            faults,
        }
    }

    /// Ends the desk, and hands back what kept its changes.
    pub fn end(self) -> K
        ensures { result ≡ self.store }
    {
        self.store
    }

    /// Ends the desk, and hands back its book, which keeps nothing from here on, and what kept its
    /// changes.
    pub fn parted(self) -> (DeskBook, K)
        ensures book { result.0 ≡ self.book }
        ensures kept { result.1 ≡ self.store }
    {
        (self.book, self.store)
    }

    /// The book, as the last command left it.
    pub fn book(&self) -> &DeskBook
        ensures { result.now ≡ self.now.book }
    {
        &self.book
    }

    /// How many faults the desk has answered since it was opened. At the greatest number the count
    /// stays.
    pub fn faults(&self) -> u64
        ensures { result ≡ self.now.faults }
    {
        self.faults
    }

    /// Whether it is not known if the last change was kept: only opening the register again decides
    /// that.
    pub fn is_in_doubt(&self) -> bool
        ensures { result ≡ K.doubts self.now.store }
    {
        self.store.is_in_doubt()
    }

    /// Carries out one command, but for the count of faults: answer, room, commit, change. A
    /// command that is refused is passed on instead.
    fn carry_out(&mut self, login: Option<Text>, command: &Command) -> Result<Reply, DeskFault>
        ensures carried { CarriesOut K.kept K.fails self.old self.new command.now result }
        ensures taken { TakesOne K.takes self.old.book.register self.old.store login command.now
            result self.new.store }
        ensures faults { self.new.faults ≡ self.old.faults }
    {
        command.typed();
        let decision = prepare(&mut self.book, command)?;
        let Decision { reply, change } = decision;
        if !is_accepted(&reply) {
            pass_on(&mut self.store, login, command, &reply)?;
            return Ok(reply);
        }
        self.store.commit(login, command, &reply, &change)?;
        apply(&mut self.book, change);
        Ok(reply)
    }

    /// Carries out one command, and counts the fault, if it met one.
    fn answer(&mut self, login: Option<Text>, command: &Command) -> Result<Reply, DeskFault>
        ensures carried { CarriesOut K.kept K.fails self.old self.new command.now result }
        ensures taken { TakesOne K.takes self.old.book.register self.old.store login command.now
            result self.new.store }
        ensures faults { self.new.faults ≡ count_after (fault_of result) self.old.faults }
    {
        match self.carry_out(login, command) {
            Ok(reply) => Ok(reply),
            Err(fault) => {
                self.faults = self.faults.saturating_add(1);
                Err(fault)
            }
        }
    }

    /// Carries out a command: it is answered, and where it is accepted its change is committed, as
    /// one, and made. A command that is refused, and `show`, commits nothing; what keeps the
    /// changes may note the refused one.
    ///
    /// `Store` where what keeps the changes fails, as `Store(Sql)` where a database refuses or
    /// fails; `Journal` where its journal was not written; `NoMemory` where memory runs out. A
    /// fault leaves the register as it was, and is counted.
    pub fn one(&mut self, command: Command) -> Result<Reply, DeskFault>
        ensures carried { CarriesOut K.kept K.fails self.old self.new command result }
        ensures taken { TakesOne K.takes self.old.book.register self.old.store None command result
            self.new.store }
        ensures led { LeadsTo K.kept K.takes self.old self.new }
        ensures ran { IsGood self.old.book.register
            → IsRun self.old.book.register
            (with_reply (command ∷ []) (replies_of result)) (replies_of result)
            self.new.book.register }
        ensures headline { OthersChangeNoReply self.old.book.register
            (with_reply (command ∷ []) (replies_of result)) (replies_of result)
            self.new.book.register }
        ensures untouched { OthersTakeNothing self.old.book.register
            (with_reply (command ∷ []) (replies_of result)) }
        ensures alone { OwnStandAlone self.old.book.register
            (with_reply (command ∷ []) (replies_of result)) (replies_of result) }
        ensures safe { CrewsWorkSafely self.old.book.register
            (with_reply (command ∷ []) (replies_of result)) self.new.book.register }
        ensures faults { self.new.faults ≡ count_after (fault_of result) self.old.faults }
        ensures keeps { Keeps (K.kept self.old.store) self.old.book.register
            (K.kept self.new.store) self.new.book.register }
        ensures crash { HasCleanDisk (K.kept self.new.store)
            → LeavesSome (K.kept self.old.store)
            (K.kept self.new.store) self.old.book.register (command ∷ [])
            (length (replies_of result)) }
    {
        self.one_from(None, command)
    }

    /// Carries out a command as `one` does, given at a login, or at none. What keeps the changes
    /// may note the login.
    pub fn one_from(&mut self, login: Option<Text>, command: Command) -> Result<Reply, DeskFault>
        ensures carried { CarriesOut K.kept K.fails self.old self.new command result }
        ensures taken { TakesOne K.takes self.old.book.register self.old.store login command result
            self.new.store }
        ensures led { LeadsTo K.kept K.takes self.old self.new }
        ensures ran { IsGood self.old.book.register
            → IsRun self.old.book.register
            (with_reply (command ∷ []) (replies_of result)) (replies_of result)
            self.new.book.register }
        ensures headline { OthersChangeNoReply self.old.book.register
            (with_reply (command ∷ []) (replies_of result)) (replies_of result)
            self.new.book.register }
        ensures untouched { OthersTakeNothing self.old.book.register
            (with_reply (command ∷ []) (replies_of result)) }
        ensures alone { OwnStandAlone self.old.book.register
            (with_reply (command ∷ []) (replies_of result)) (replies_of result) }
        ensures safe { CrewsWorkSafely self.old.book.register
            (with_reply (command ∷ []) (replies_of result)) self.new.book.register }
        ensures faults { self.new.faults ≡ count_after (fault_of result) self.old.faults }
        ensures keeps { Keeps (K.kept self.old.store) self.old.book.register
            (K.kept self.new.store) self.new.book.register }
        ensures crash { HasCleanDisk (K.kept self.new.store)
            → LeavesSome (K.kept self.old.store)
            (K.kept self.new.store) self.old.book.register (command ∷ [])
            (length (replies_of result)) }
    {
        self.answer(login, &command)
    }

    /// Carries out commands one after the other, up to the first fault; the replies before it stay.
    ///
    /// Room for all replies is made first: where that is refused, no command is carried out, and
    /// the fault is `NoMemory`. Each command is carried out as by `one`.
    pub fn run(&mut self, commands: Vec<Command>) -> Run
        ensures ran { IsGood self.old.book.register
            → IsRun self.old.book.register
            (with_reply commands.items result.replies.items) result.replies.items
            self.new.book.register }
        ensures near { IsNearRun self.old.book.register
            (with_reply commands.items result.replies.items) result.replies.items
            self.new.book.register }
        ensures network { self.new.book.network
            ≡ near_network_all self.old.book.register
            (with_reply commands.items result.replies.items) self.old.book.network }
        ensures ends { IfNone result.fault (length result.replies.items ≡ length commands.items) }
        ensures stops { IfSome result.fault
            (λ _. length result.replies.items < length commands.items) }
        ensures headline { OthersChangeNoReply self.old.book.register
            (with_reply commands.items result.replies.items) result.replies.items
            self.new.book.register }
        ensures untouched { OthersTakeNothing self.old.book.register
            (with_reply commands.items result.replies.items) }
        ensures alone { OwnStandAlone self.old.book.register
            (with_reply commands.items result.replies.items) result.replies.items }
        ensures safe { CrewsWorkSafely self.old.book.register
            (with_reply commands.items result.replies.items) self.new.book.register }
        ensures typed { IsTrue (list_all is_typed_command commands.items) }
        ensures faults { self.new.faults ≡ count_after result.fault self.old.faults }
        ensures cause { IfSome result.fault (IsOfKeeper K.fails) }
        ensures taken { TakesRun K.takes self.new.book.register self.old.store commands.items
            result.replies.items result.fault self.new.store }
        ensures led { LeadsTo K.kept K.takes self.old self.new }
        ensures unwritten { list_any is_accepted result.replies.items ≡ false
            → HasCleanDisk (K.kept self.new.store)
            → IsTrue (K.kept self.new.store).is_open
            → (K.kept self.new.store).now ≡ (K.kept self.old.store).now }
        ensures keeps { Keeps (K.kept self.old.store) self.old.book.register
            (K.kept self.new.store) self.new.book.register }
        ensures saved { HasCleanDisk (K.kept self.new.store)
            → IsSaved (K.kept self.old.store)
            → IfNone result.fault (IsSaved (K.kept self.new.store)) }
        ensures crash { HasCleanDisk (K.kept self.new.store)
            → LeavesSome (K.kept self.old.store)
            (K.kept self.new.store) self.old.book.register commands.items
            (length result.replies.items) }
    {
        all_typed(commands.as_slice());
        let mut replies = Vec::new(*commands.allocator());
        if replies.reserve(commands.len()).is_err() {
            self.faults = self.faults.saturating_add(1);
            return Run {
                replies,
                fault: Some(DeskFault::NoMemory),
            };
        }
        for command in commands.as_slice() {
            match self.answer(None, command) {
                Ok(reply) => {
                    let Ok(()) = replies.push(reply) else {
                        unreachable!()
                    };
                }
                Err(fault) => {
                    return Run {
                        replies,
                        fault: Some(fault),
                    };
                }
            }
        }
        Run {
            replies,
            fault: None,
        }
    }
}

/// Passes a command that is refused on to what keeps the changes, and one that is shown to nobody.
fn pass_on<K: Commit>(
    keeper: &mut K,
    login: Option<Text>,
    command: &Command,
    reply: &Reply,
) -> Result<(), DeskFault>
    requires { is_accepted reply.now ≡ false }
    ensures stays { Stays (K.kept keeper.old) (K.kept keeper.new) }
    ensures fault { IfErr result (IsOfKeeper K.fails) }
    ensures taken { Takes K.takes keeper.old login command.now reply.now result keeper.new }
{
    if let Reply::Refused(_) = reply {
        keeper.note_refused(login, command, reply)?;
    }
    Ok(())
}

/// Whether a reply says that the command was carried out, and not refused or shown.
fn is_accepted(reply: &Reply) -> bool
    ensures { result ≡ is_accepted reply.now }
{
    match reply {
        Reply::Accepted(_) | Reply::Added(_) => true,
        Reply::Shown(_) | Reply::Refused(_) => false,
    }
}
