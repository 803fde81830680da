// Tables that are read while the texts are executed.
ghost use Rattle.std.specs.Prelude.{◌≡◌, ◌≤◌, ℕ, List, false, IfOk, IfErr};
ghost use Rattle.glpsol_cli.specs.Pieces.{Outside};
ghost use Rattle.glpsol_cli.specs.Left.{IsNext, IsNextOf, IsSomeHalt, IsSomeWaiting, is_waiting};
ghost use Rattle.glpsol_cli.specs.Stages.{GoesOn, GoesOnPaused, IsTableExecuted, Moment, Stops, pieces_of};
ghost use Rattle.glpsol_cli.specs.declared.publish.PublishFault.TheVariants.{NoMemory};

use crate::execution::{Executed, Halt, Waiting, execute_on};
use crate::inputs::{Inputs, load};
use crate::publish::{Piece, PublishFault, write_pieces};
use crate::stop::Stop;
use instance::Name;
use outside::{Sink, Store};
use std::alloc::{AllocError, Global};

// The texts that were read, and what their execution comes to.
#[derive(Drop)]
pub struct Run {
    pub inputs: Inputs,
    pub executed: Executed,
}

/// The run where the files of all tables are read that the execution asks for, or one of them is not. Behind each table that is read less
/// of the text is left.
pub fn with_tables<S: Store, O: Sink>(
    alloc: Global,
    run: Run,
    files: &mut S,
    out: &mut O,
) -> Result<Run, PublishFault>
    requires { IsSomeHalt run.inputs.settings run.executed.halt }
    ensures over { IfOk result (λ made. is_waiting made.executed.halt ≡ false) }
    ensures run { IfOk result (GoesOn (record { outside = record { taken = O.taken out.old; told = S.told files.old }; files = S.faults files.old; out = O.faults out.old })
        (record { outside = record { taken = O.taken out.new; told = S.told files.new }; files = S.faults files.new; out = O.faults out.new }) run) }
    ensures unwritten { IfErr result (Stops (record { outside = record { taken = O.taken out.old; told = S.told files.old }; files = S.faults files.old; out = O.faults out.old })
        (record { outside = record { taken = O.taken out.new; told = S.told files.new }; files = S.faults files.new; out = O.faults out.new }) run) }
    ensures files_later { S.faults files.old ≤ S.faults files.new }
    ensures out_later { O.faults out.old ≤ O.faults out.new }
{
    let mut latest = run;
    while is_waiting(&latest.executed.halt) {
        latest = match behind_table(alloc, latest, files, out) {
            Ok(made) => made,
            Err(fault) => return Err(fault),
        };
    }
    Ok(latest)
}

fn is_waiting(halt: &Halt) -> bool
    ensures { result ≡ is_waiting halt.now }
{
    match halt {
        Halt::Table(_) => true,
        Halt::End(_) | Halt::Unread(_) => false,
    }
}

// The run behind the table at which it halts, or as it is.
fn behind_table<S: Store, O: Sink>(
    alloc: Global,
    run: Run,
    files: &mut S,
    out: &mut O,
) -> Result<Run, PublishFault>
    requires { IsSomeHalt run.inputs.settings run.executed.halt }
    ensures next { IfOk result (IsNextOf run.executed.halt) }
    ensures run { IfOk result (GoesOn (record { outside = record { taken = O.taken out.old; told = S.told files.old }; files = S.faults files.old; out = O.faults out.old })
        (record { outside = record { taken = O.taken out.new; told = S.told files.new }; files = S.faults files.new; out = O.faults out.new }) run) }
    ensures unwritten { IfErr result (Stops (record { outside = record { taken = O.taken out.old; told = S.told files.old }; files = S.faults files.old; out = O.faults out.old })
        (record { outside = record { taken = O.taken out.new; told = S.told files.new }; files = S.faults files.new; out = O.faults out.new }) run) }
    ensures files_later { S.faults files.old ≤ S.faults files.new }
    ensures out_later { O.faults out.old ≤ O.faults out.new }
{
    let Run { inputs, executed } = run;
    let Executed {
        files: made,
        shown,
        halt,
    } = executed;
    match halt {
        Halt::Table(waiting) => at_table(alloc, inputs, made, shown, waiting, files, out),
        Halt::End(end) => Ok(run_at(inputs, made, shown, Halt::End(end))),
        Halt::Unread(unread) => Ok(run_at(inputs, made, shown, Halt::Unread(unread))),
    }
}

fn run_at(inputs: Inputs, files: Vec<Piece>, shown: Vec<Piece>, halt: Halt) -> Run
    ensures { result ≡ record { inputs = inputs; executed = record { files = files; shown = shown; halt = halt } } }
{
    Run {
        inputs,
        executed: Executed { files, shown, halt },
    }
}

// The files that were made before the table are written, and then its own is read.
fn at_table<S: Store, O: Sink>(
    alloc: Global,
    inputs: Inputs,
    made: Vec<Piece>,
    shown: Vec<Piece>,
    waiting: Waiting,
    files: &mut S,
    out: &mut O,
) -> Result<Run, PublishFault>
    requires { IsSomeWaiting inputs.settings waiting }
    ensures next { IfOk result (IsNext (Halt.Table waiting)) }
    ensures run { IfOk result (GoesOn (record { outside = record { taken = O.taken out.old; told = S.told files.old }; files = S.faults files.old; out = O.faults out.old })
        (record { outside = record { taken = O.taken out.new; told = S.told files.new }; files = S.faults files.new; out = O.faults out.new }) (record { inputs = inputs; executed = record { files = made; shown = shown; halt = Halt.Table waiting } })) }
    ensures unwritten { IfErr result (Stops (record { outside = record { taken = O.taken out.old; told = S.told files.old }; files = S.faults files.old; out = O.faults out.old })
        (record { outside = record { taken = O.taken out.new; told = S.told files.new }; files = S.faults files.new; out = O.faults out.new }) (record { inputs = inputs; executed = record { files = made; shown = shown; halt = Halt.Table waiting } })) }
    ensures files_later { S.faults files.old ≤ S.faults files.new }
    ensures out_later { O.faults out.old ≤ O.faults out.new }
{
    match write_pieces(files, out, made) {
        Ok(()) => read_table(alloc, inputs, shown, waiting, files),
        Err(fault) => Err(fault),
    }
}

// The table's file is read, and the execution goes on behind it.
fn read_table<S: Store>(
    alloc: Global,
    inputs: Inputs,
    shown: Vec<Piece>,
    waiting: Waiting,
    files: &mut S,
) -> Result<Run, PublishFault>
    requires { IsSomeWaiting inputs.settings waiting }
    ensures next { IfOk result (IsNext (Halt.Table waiting)) }
    ensures run { IfOk result (GoesOnPaused (S.told files.old) (S.faults files.old) (S.told files.new) (S.faults files.new) inputs (pieces_of shown.items) waiting) }
    ensures fault { IfErr result (λ fault. fault ≡ NoMemory) }
    ensures told { (other : List ℕ) → S.told files.new other ≡ S.told files.old other }
    ensures later { S.faults files.old ≤ S.faults files.new }
{
    let name = match table_name(alloc, &waiting) {
        Ok(name) => name,
        Err(_) => return Err(PublishFault::NoMemory),
    };
    match load(alloc, &name, files) {
        Ok(text) => match executed_on(alloc, inputs, waiting, text) {
            Ok(run) => Ok(run),
            Err(_) => Err(PublishFault::NoMemory),
        },
        Err(Stop::File(unread)) => {
            let halt = Halt::Unread(unread);
            Ok(run_at(inputs, Vec::new(alloc), shown, halt))
        }
        Err(_) => Err(PublishFault::NoMemory),
    }
}

// The name of the file that is to be read.
fn table_name(alloc: Global, waiting: &Waiting) -> Result<Name, AllocError>
    ensures { IfOk result (λ name. name ≡ waiting.now.pending.pause.name) }
{
    Name::new(alloc, waiting.pending.get().pause.name.as_str())
}

// The run with the text of one more table.
fn executed_on(
    alloc: Global,
    inputs: Inputs,
    waiting: Waiting,
    text: Vec<u8>,
) -> Result<Run, AllocError>
    ensures { IfOk result (λ run. IsTableExecuted inputs waiting text.items run.inputs run.executed) }
{
    let executed = execute_on(alloc, inputs.settings.get(), waiting, &text)?;
    let inputs = inputs.with_table(text)?;
    Ok(Run { inputs, executed })
}
