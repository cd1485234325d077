//! A machine of which this much is known, and what the clauses of `serve` say of it: its register
//! answers, to the last byte. The machine in memory is one.
ghost use Rattle.std.specs.Prelude.{◌≡◌, ℕ, List, OnOk};
ghost use Rattle.clr_commands.specs.Connections.{seen};
ghost use Rattle.clr_known.specs.Known.{IsAlwaysClean, IsAskedForBoard, IsBoardResponse};
ghost use Rattle.clr_known.specs.Known.{KnowsJones, ServesOnce, fresh};

use crate::blank::Blank;
use crate::files::KnownFiles;
use crate::machine::Known;
use clr_args::asked::ServeArgs;
use clr_commands::serve::serve;
use clr_edge::database::Makes;
use clr_edge::fault::Fault;
use clr_edge::journals::Journals;
use clr_edge::loopback::Loopback;
use clr_edge::paths::Opens;
use clr_stream::CountedFlush;
use std::alloc::Global;

/// A machine whose databases have the register of JONES/1, and whose disks are clean. The board is
/// asked for over each of its connections, and what went out over the last one is kept.
pub trait JonesMachine: Makes + Journals + Loopback {
    ghost response: { Self → List ℕ };

    ghost knows: { KnowsJones Self.Tables.Store Self.opens };

    ghost clean: { IsAlwaysClean Self.Tables.Store };

    ghost asked: { IsAskedForBoard Self.ends Self.Loopback
        (seen Self.Reader.remaining Self.Reader.failure_count Self.Writer.stream) response };
}

impl<B: Blank + Drop> JonesMachine for Known<B> {
    ghost use Rattle.std.proofs.Common.{List, ℕ, Some, ap, sym};
    ghost use Rattle.clr_known.specs.declared.machine.Known.{Known as AnyKnown};

    ghost response = { λ known. known.response.items };

    ghost knows = { λ old new path connection opened. opened.1 };

    ghost clean = { λ connection. B.clean connection };

    ghost asked = { record {
      comes = λ old new listener deadline connection came.
          (ap (λ (bytes : List ℕ). Some bytes) came.1, ap (λ (bytes : List ℕ). Some bytes) came.2);
      misses = λ old new listener tries kind missed. missed;
      keeps = λ old new connection is_expected left.
          ap (λ (m : AnyKnown B B.Tables B.Log). Some m.response.items) (sym left);
      ended = λ old new database closed back.
          ap (λ (m : AnyKnown B B.Tables B.Log). m.response.items) back;
    } };
}

/// Answers one connection from the register at `jones.db`, without a journal.
fn service_of_jones<'a, R: JonesMachine, O: Opens<'a>, W: CountedFlush, E: CountedFlush>(
    alloc: Global,
    machine: &mut R,
    paths: &O,
    args: &ServeArgs<'a>,
    output: &mut W,
    errors: &mut E,
) -> Result<(), Fault>
    requires { ServesOnce args.now }
    ensures { OnOk result (E.stream errors.old ≡ fresh → E.stream errors.new ≡ fresh
        → IsBoardResponse (R.response machine.new)) }
{
    serve(alloc, machine, paths, args, output, errors)
}

/// The same of such a machine over blank databases: what went out over the connection is the
/// response to a request for the board, unless a failure was reported.
pub fn known_service<B: Blank + Drop, W: CountedFlush, E: CountedFlush>(
    machine: &mut Known<B>,
    output: &mut W,
    errors: &mut E,
) -> Result<(), Fault>
    ensures { OnOk result (E.stream errors.old ≡ fresh → E.stream errors.new ≡ fresh
        → IsBoardResponse machine.new.response.items) }
{
    let args = ServeArgs {
        database: "jones.db",
        port: 8080,
        count: 1,
        deadline: None,
        desk: false,
        logins: None,
        journal: None,
    };
    let paths = KnownFiles { all: &[] };
    service_of_jones(machine.alloc, machine, &paths, &args, output, errors)
}
