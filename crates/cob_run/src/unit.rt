//! A run unit.
ghost use Rattle.std.specs.Prelude.{
  ◌≡◌,
  ℕ,
  List,
  [],
  ◌∷◌,
  ◌++◌,
  Option,
  Some,
  IfOk,
  IfSome,
  OnOk,
  option_map,
};
ghost use Rattle.com_events.specs.Calls.{AreNames};
ghost use Rattle.com_events.specs.declared.call.Call.{Call as CallOf};
ghost use Rattle.com_events.specs.declared.reply.Reply.{Reply as ReplyOf};
ghost use Rattle.cob_meaning.specs.Meaning.{Program};
ghost use Rattle.cob_meaning.specs.Sources.{IsProgramOf};
ghost use Rattle.cob_flat.specs.Compiled.{IsCompiled};
ghost use Rattle.cob_run.specs.declared.returns.Mode.TheVariants as modes;
ghost use Rattle.cob_run.specs.Places.{Stands};
ghost use Rattle.cob_run.specs.Units.{
  AreOperandsIn,
  IsCodeOf,
  IsNewFor,
  IsReplyFor,
  IsWantOf,
  StandsFor,
};
ghost use Rattle.cob_run.specs.Within.{IsWithin, sizes};

use crate::machine::State;
use crate::program::FlatProgram;
use crate::returns::Mode;
use crate::want::Want;
use cob_flat::Instruction;
use cob_meaning::laws::calls_of_sources_are_well_formed;
use com_cd::NAMES_LENGTH;
use com_events::{Reply, StopReason};
use com_text::Rows;
use std::alloc::{AllocError, Global};
use std::marker::Model;

/// Runs from instruction to instruction, until a verb waits or the unit stops. If memory runs out,
/// the unit stands between two instructions, and goes on from there.
fn run(state: &mut State, code: &[Instruction], starts: &[usize]) -> Result<(), AllocError>
    requires { IsWithin (sizes state.old.storage) code.now }
    ensures stands { (program : Program) (names : Option (List ℕ)) (replies : List ReplyOf)
        (calls : List CallOf) → IsCompiled program code.now starts.now →
        Stands program code.now names replies calls state.old →
        Stands program code.now names replies calls state.new }
    ensures sizes { sizes state.new.storage ≡ sizes state.old.storage }
    ensures over { OnOk result (state.new.mode ≡ modes.Running → ⊥) }
{
    'steps: while let Mode::Running = state.mode() {
        state.step(code, starts)?;
    }
    Ok(())
}

/// A unit that runs a program, from verb to verb. Contracts see its code and its machine.
#[derive(Debug, Drop)]
pub struct Unit {
    code: Rows<Instruction>,
    starts: Rows<usize>,
    initial: Option<u32>,
    state: State,
}

impl Model for Unit {
    ghost use Rattle.cob_run.specs.Units.{AreOperandsIn, UnitState};
    ghost use Rattle.cob_run.specs.Within.{sizes};

    ghost Value = { UnitState };

    ghost view = { λ unit. record {
      code = unit.code;
      starts = unit.starts;
      initial = unit.initial;
      machine = unit.state;
    } };

    ghost invariant = { λ unit. AreOperandsIn (sizes unit.state.storage) unit.code unit.initial };
}

impl Unit {
    /// Returns a unit that is not begun.
    pub fn new(alloc: Global, program: FlatProgram) -> Result<Unit, AllocError>
        requires { AreOperandsIn (sizes program.opening) program.code program.initial }
        ensures { IfOk result (λ unit. (source : List ℕ) (meant : Program) →
            IsProgramOf source meant → IsCodeOf meant program → IsNewFor meant unit) }
    {
        let FlatProgram {
            code,
            starts,
            opening,
            initial,
        } = program;
        Ok(Unit {
            code,
            starts,
            initial,
            state: State::new(alloc, opening)?,
        })
    }

    /// Begins the program. The names that START hands over are placed in the first characters of
    /// the CD that has INITIAL, if there is one.
    pub fn begin(&mut self, names: Option<&[u8; NAMES_LENGTH]>)
        requires fresh { self.old.machine.mode ≡ modes.NotBegun }
        requires names { IfSome (option_map (λ x. x.now) names) AreNames }
        ensures { (program : Program) → IsNewFor program self.old →
            StandsFor program (option_map (λ x. x.now) names.entry) [] self.new }
    {
        self.state
            .begin(self.starts.as_slice(), self.initial, names);
    }

    /// Runs until a verb waits or the unit stops.
    fn run(&mut self) -> Result<(), AllocError>
        ensures stands { (program : Program) (names : Option (List ℕ)) (replies : List ReplyOf) →
            StandsFor program names replies self.old → StandsFor program names replies self.new }
        ensures over { OnOk result (self.new.machine.mode ≡ modes.Running → ⊥) }
    {
        run(
            &mut self.state,
            self.code.as_slice(),
            self.starts.as_slice(),
        )
    }

    /// What a unit wants that does not run.
    fn want(&self) -> Result<Want, AllocError>
        requires { self.now.machine.mode ≡ modes.Running → ⊥ }
        ensures { IfOk result (λ want. (program : Program) (names : Option (List ℕ))
            (replies : List ReplyOf) → StandsFor program names replies self.now →
            IsWantOf program names replies self.now want) }
    {
        calls_of_sources_are_well_formed();
        match self.state.mode() {
            Mode::Stopped(reason) => Ok(Want::Stop(reason)),
            Mode::Waiting => match self
                .state
                .call(self.code.allocator(), self.code.as_slice())?
            {
                Some(call) => Ok(Want::Verb(call)),
                // A unit waits only at a verb that makes a call.
                None => Ok(Want::Stop(StopReason::DataFault)),
            },
            // A unit that is not begun stands for nothing.
            Mode::NotBegun => Ok(Want::Stop(StopReason::Run)),
            Mode::Running => Ok(Want::Stop(StopReason::Run)),
        }
    }

    /// Runs to the next verb or to the end, and returns it. A want stays until it is answered, and
    /// a stop stays. If memory runs out, the unit still stands for what it stood for. One that is
    /// not begun stands for nothing.
    pub fn step_to_call(&mut self) -> Result<Want, AllocError>
        ensures stands { (program : Program) (names : Option (List ℕ)) (replies : List ReplyOf) →
            StandsFor program names replies self.old → StandsFor program names replies self.new }
        ensures want { IfOk result (λ want. (program : Program) (names : Option (List ℕ))
            (replies : List ReplyOf) → StandsFor program names replies self.new →
            IsWantOf program names replies self.new want) }
    {
        self.run()?;
        self.want()
    }

    /// Takes the reply to the verb that is wanted.
    pub fn answer(&mut self, reply: &Reply)
        requires { IsReplyFor self.old reply.now }
        ensures { (program : Program) (names : Option (List ℕ)) (replies : List ReplyOf) →
            StandsFor program names replies self.old →
            StandsFor program names (replies ++ reply.now ∷ []) self.new }
    {
        self.state.take_reply(self.code.as_slice(), reply);
    }
}
