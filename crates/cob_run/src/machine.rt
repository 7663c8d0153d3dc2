//! A unit's place in its code, and what an instruction does.
ghost use Rattle.std.specs.Prelude.{
  ◌≡◌,
  ◌<◌,
  ◌==◌,
  List,
  ◌∷◌,
  Some,
  IfOk,
  IfSome,
  OnErr,
  OnOk,
  drop,
  length,
  option_map,
  slice_get,
  if◌then◌else◌,
};
ghost use Rattle.com_events.specs.declared.call.StopReason.TheVariants as reasons;
ghost use Rattle.cob_meaning.specs.Meaning.{unit_limits, with_names};
ghost use Rattle.cob_flat.specs.Effects.{effect, holds_by, request_by};
ghost use Rattle.cob_run.specs.declared.returns.Return.{Return as ReturnOf};
ghost use Rattle.cob_run.specs.declared.returns.Mode.TheVariants as modes;
ghost use Rattle.cob_run.specs.Machine.{
  acted,
  asked,
  changed_by,
  chosen,
  counted,
  counted_turn,
  ended,
  entered,
  judged_by,
  machine_begun,
  performed,
  place_after,
  replied,
  requested_at,
  returned,
  stepped,
  stepped_by,
  stopped,
  stored_by,
  turned,
  went_on,
};
ghost use Rattle.cob_run.specs.inner.Stepping.{
  Comes,
  begun_by,
  counted_once,
  further_by,
  pushed_on,
};
ghost use Rattle.cob_run.specs.inner.Requests.{IsCallOf, IsFitFor};
ghost use Rattle.cob_run.specs.Within.{
  AreTurnsIn,
  IsActionIn,
  IsInitialIn,
  IsInstructionIn,
  IsTestIn,
  IsVerbIn,
  IsWithin,
  sizes,
};

use crate::actions::act;
use crate::area::Area;
use crate::conditions::holds;
use crate::opening::{areas_of, put_names};
use crate::operands::amount;
use crate::replies::put_reply;
use crate::requests::{call, makes_call};
use crate::returns::{Further, Mode, Return};
use crate::stack::ReturnStack;
use cob_flat::{Action, Instruction, Test, Turns, Verb};
use cob_meaning::MAX_STATEMENTS;
use cob_meaning::laws::units_have_limits;
use com_cd::NAMES_LENGTH;
use com_events::{Call, Reply, StopReason};
use com_msg::MAX_ITEM_LENGTH;
use com_text::Rows;
use std::alloc::{AllocError, Global};
use std::marker::Model;

/// How many verbs of a unit may be answered.
const MAX_VERBS: u32 = 10_000;

/// Where a unit is in its code, and its storage. Contracts see a machine.
#[derive(Debug, Drop)]
pub(crate) struct State {
    mode: Mode,
    place: usize,
    paragraph: usize,
    stack: ReturnStack,
    areas: Vec<Area>,
    copy: Vec<u8>,
    left: u32,
    verbs: u32,
}

impl Model for State {
    ghost use Rattle.std.specs.Prelude.{◌≡◌, length};
    ghost use Rattle.com_msg.specs.declared.sending.TheConstants.{MAX_ITEM_LENGTH};
    ghost use Rattle.cob_run.specs.Machine.{Machine};

    ghost Value = { Machine };

    ghost view = { λ state. record {
      mode = state.mode;
      place = state.place;
      paragraph = state.paragraph;
      stack = state.stack;
      storage = state.areas.items;
      left = state.left;
      verbs = state.verbs;
    } };

    ghost invariant = { λ state. length state.copy.items ≡ MAX_ITEM_LENGTH };
}

impl State {
    /// Stops for a reason.
    fn stop(&mut self, reason: StopReason)
        ensures { self.new ≡ stopped reason self.old }
    {
        self.mode = Mode::Stopped(reason);
    }

    /// Goes on at the beginning of a paragraph.
    fn enter(&mut self, starts: &[usize], paragraph: usize)
        ensures { self.new ≡ entered starts.now paragraph self.old }
    {
        self.place = if paragraph < starts.len() {
            starts[paragraph]
        } else {
            0
        };
        self.paragraph = paragraph;
    }

    /// Goes on with the next paragraph, or stops at the end of the text.
    fn go_on(&mut self, starts: &[usize])
        ensures { self.new ≡ went_on starts.now self.old }
    {
        if self.paragraph < starts.len() && self.paragraph + 1 < starts.len() {
            self.enter(starts, self.paragraph + 1);
        } else {
            self.stop(StopReason::Run);
        }
    }

    /// Goes on after the innermost PERFORM.
    fn return_from(&mut self, top: Return)
        ensures { self.new ≡ returned top (drop 1 self.old.stack) self.old }
    {
        self.stack.pop();
        self.paragraph = top.paragraph;
        self.place = top.back;
    }

    /// Begins the next turn of the innermost PERFORM, which is counted.
    fn count_turn(&mut self, starts: &[usize], top: Return)
        requires { 0 < length self.old.stack }
        ensures { self.new ≡ counted_turn starts.now top (drop 1 self.old.stack) self.old }
    {
        if self.left == 0 {
            self.stop(StopReason::Limit);
        } else {
            self.left -= 1;
            self.stack.replace(top);
            self.enter(starts, top.first);
        }
    }

    /// Whether the condition of a PERFORM's instruction holds.
    fn judge(&self, code: &[Instruction], call: usize) -> Option<bool>
        requires { IsWithin (sizes self.now.storage) code.now }
        ensures { result ≡ judged_by (slice_get code.now call) self.now.storage }
    {
        match code.get(call) {
            Some(
                Instruction::Perform {
                    turns: Turns::Until(test),
                    ..
                },
            ) => holds(&self.areas, test),
            _ => None,
        }
    }
}

impl State {
    /// Begins the next turn of the innermost PERFORM, or ends it.
    fn turn(&mut self, code: &[Instruction], starts: &[usize], top: Return)
        requires within { IsWithin (sizes self.old.storage) code.now }
        requires some { 0 < length self.old.stack }
        ensures { self.new
            ≡ turned code.now starts.now top.further top (drop 1 self.old.stack) self.old }
    {
        match top.further {
            Further::Times(0) => self.return_from(top),
            Further::Times(left) => {
                let next = Return {
                    further: Further::Times(left - 1),
                    ..top
                };
                self.count_turn(starts, next);
            }
            Further::Until => match self.judge(code, top.call) {
                None => self.stop(StopReason::DataFault),
                Some(true) => self.return_from(top),
                Some(false) => self.count_turn(starts, top),
            },
        }
    }

    /// Ends a paragraph.
    fn end_paragraph(&mut self, code: &[Instruction], starts: &[usize])
        requires { IsWithin (sizes self.old.storage) code.now }
        ensures { self.new ≡ ended code.now starts.now self.old.stack self.old }
    {
        match self.stack.top() {
            Some(top) => {
                if self.paragraph == top.last {
                    self.turn(code, starts, top);
                } else {
                    self.go_on(starts);
                }
            }
            None => self.go_on(starts),
        }
    }

    /// Counts a statement.
    fn count(&mut self)
        requires { 0 < self.old.left }
        ensures { self.new ≡ counted_once self.old }
    {
        self.left -= 1;
    }

    /// Puts a PERFORM on the stack. If memory runs out, nothing changes.
    fn push(
        &mut self,
        first: usize,
        last: usize,
        further: Further,
        next: usize,
    ) -> Result<(), AllocError>
        ensures ok { OnOk result (self.new ≡ pushed_on first last further next self.old) }
        ensures err { OnErr result (self.new ≡ self.old) }
    {
        let begun = Return {
            first,
            last,
            further,
            call: self.place,
            paragraph: self.paragraph,
            back: next,
        };
        self.stack.push(begun)
    }

    /// The turns of a PERFORM that is begun: None is a stop for DATA.
    fn further(&self, turns: &Turns) -> Option<Further>
        requires { AreTurnsIn (sizes self.now.storage) turns.now }
        ensures { result ≡ further_by turns.now self.now.storage }
    {
        match turns {
            Turns::Once => Some(Further::Times(0)),
            Turns::Times(number) => Some(Further::Times(amount(&self.areas, *number)?)),
            Turns::Until(_) => Some(Further::Until),
        }
    }

    /// Begins the PERFORM that was pushed, once it was counted.
    fn begin_turns(&mut self, code: &[Instruction], starts: &[usize], turns: &Turns)
        requires { IsWithin (sizes self.old.storage) code.now }
        ensures { (top : ReturnOf) (below : List ReturnOf) → self.old.stack ≡ top ∷ below →
            self.new ≡ begun_by code.now starts.now turns.now top below self.old }
    {
        let Some(top) = self.stack.top() else {
            return;
        };
        match turns {
            Turns::Once => self.enter(starts, top.first),
            Turns::Times(_) | Turns::Until(_) => self.turn(code, starts, top),
        }
    }
}

impl State {
    /// Begins a PERFORM, which is counted. If memory runs out, nothing changes.
    fn perform(
        &mut self,
        code: &[Instruction],
        starts: &[usize],
        first: usize,
        last: usize,
        turns: &Turns,
        next: usize,
    ) -> Result<(), AllocError>
        requires within { IsWithin (sizes self.old.storage) code.now }
        requires turns { AreTurnsIn (sizes self.old.storage) turns.now }
        requires some { 0 < self.old.left }
        ensures ok { OnOk result (self.new
            ≡ performed code.now starts.now turns.now first last next (counted_once self.old)) }
        ensures err { OnErr result (self.new ≡ self.old) }
    {
        let Some(further) = self.further(turns) else {
            self.count();
            self.stop(StopReason::DataFault);
            return Ok(());
        };
        self.push(first, last, further, next)?;
        self.count();
        self.begin_turns(code, starts, turns);
        Ok(())
    }

    /// Waits with the call of a verb, if another may be answered.
    fn ask(&mut self, verb: &Verb)
        requires { IsVerbIn (sizes self.old.storage) verb.now }
        ensures { self.new ≡ (if self.old.verbs == 0 then stopped reasons.Limit self.old else
            asked (request_by verb.now self.old.storage) self.old) }
    {
        if self.verbs == 0 {
            self.stop(StopReason::Limit);
        } else if makes_call(&self.areas, verb) {
            self.mode = Mode::Waiting;
            self.verbs -= 1;
        } else {
            self.stop(StopReason::DataFault);
        }
    }

    /// Goes on by a condition.
    fn choose(&mut self, test: &Test, one: usize, other: usize)
        requires { IsTestIn (sizes self.old.storage) test.now }
        ensures { self.new ≡ chosen (holds_by test.now self.old.storage) self.old
            (record self.old { place = one }) (record self.old { place = other }) }
    {
        match holds(&self.areas, test) {
            None => self.stop(StopReason::DataFault),
            Some(true) => self.place = one,
            Some(false) => self.place = other,
        }
    }

    /// Does a statement that only changes the storage.
    fn do_action(&mut self, action: &Action, next: usize)
        requires { IsActionIn (sizes self.old.storage) action.now }
        ensures done { Comes (changed_by (effect action.now self.old.storage) next self.old)
            self.new }
        ensures sizes { sizes self.new.storage ≡ sizes self.old.storage }
    {
        match act(&mut self.areas, &mut self.copy, action) {
            Some(()) => self.place = next,
            None => self.stop(StopReason::DataFault),
        }
    }
}

impl State {
    /// Does an instruction that begins a statement, which is counted. If memory runs out, nothing
    /// changes.
    fn execute(
        &mut self,
        code: &[Instruction],
        starts: &[usize],
        instruction: &Instruction,
    ) -> Result<(), AllocError>
        requires within { IsWithin (sizes self.old.storage) code.now }
        requires instruction { IsInstructionIn (sizes self.old.storage) instruction.now }
        requires some { 0 < self.old.left }
        ensures ok { OnOk result (Comes (acted code.now starts.now instruction.now
            (counted_once self.old)) self.new) }
        ensures err { OnErr result (self.new ≡ self.old) }
        ensures sizes { sizes self.new.storage ≡ sizes self.old.storage }
    {
        match instruction {
            Instruction::Act { action, next } => {
                self.count();
                self.do_action(action, *next);
                Ok(())
            }
            Instruction::Choose { test, one, other } => {
                self.count();
                self.choose(test, *one, *other);
                Ok(())
            }
            Instruction::Perform {
                first,
                last,
                turns,
                next,
            } => self.perform(code, starts, *first, *last, turns, *next),
            Instruction::Ask { verb, .. } => {
                self.count();
                self.ask(verb);
                Ok(())
            }
            Instruction::Go { paragraph } => {
                self.count();
                self.enter(starts, *paragraph);
                Ok(())
            }
            Instruction::Halt => {
                self.count();
                self.stop(StopReason::Run);
                Ok(())
            }
            Instruction::End => {
                self.count();
                self.end_paragraph(code, starts);
                Ok(())
            }
        }
    }

    /// Begins a statement, if another may be begun. If memory runs out, nothing changes.
    fn begin_statement(
        &mut self,
        code: &[Instruction],
        starts: &[usize],
        instruction: &Instruction,
    ) -> Result<(), AllocError>
        requires within { IsWithin (sizes self.old.storage) code.now }
        requires instruction { IsInstructionIn (sizes self.old.storage) instruction.now }
        ensures ok { OnOk result (Comes (counted code.now starts.now instruction.now self.old)
            self.new) }
        ensures err { OnErr result (self.new ≡ self.old) }
        ensures sizes { sizes self.new.storage ≡ sizes self.old.storage }
    {
        if self.left == 0 {
            self.stop(StopReason::Limit);
            return Ok(());
        }
        self.execute(code, starts, instruction)
    }

    /// Does an instruction. If memory runs out, nothing changes.
    fn step_by(
        &mut self,
        code: &[Instruction],
        starts: &[usize],
        instruction: &Instruction,
    ) -> Result<(), AllocError>
        requires within { IsWithin (sizes self.old.storage) code.now }
        requires instruction { IsInstructionIn (sizes self.old.storage) instruction.now }
        ensures ok { OnOk result (Comes (stepped_by code.now starts.now (Some instruction.now)
            self.old) self.new) }
        ensures err { OnErr result (self.new ≡ self.old) }
        ensures sizes { sizes self.new.storage ≡ sizes self.old.storage }
    {
        match instruction {
            Instruction::End => {
                self.end_paragraph(code, starts);
                Ok(())
            }
            _ => self.begin_statement(code, starts, instruction),
        }
    }

    /// Does the instruction at which the unit is. If memory runs out, nothing changes.
    pub(crate) fn step(&mut self, code: &[Instruction], starts: &[usize]) -> Result<(), AllocError>
        requires { IsWithin (sizes self.old.storage) code.now }
        ensures ok { OnOk result (Comes (stepped code.now starts.now self.old) self.new) }
        ensures err { OnErr result (self.new ≡ self.old) }
        ensures sizes { sizes self.new.storage ≡ sizes self.old.storage }
    {
        match code.get(self.place) {
            None => {
                self.stop(StopReason::Run);
                Ok(())
            }
            Some(instruction) => self.step_by(code, starts, instruction),
        }
    }

    /// Stores the reply to a verb, and goes on after it.
    fn resume(&mut self, verb: &Verb, reply: &Reply, no_data: usize, next: usize)
        requires verb { IsVerbIn (sizes self.old.storage) verb.now }
        requires fit { IsFitFor (request_by verb.now self.old.storage) reply.now }
        ensures taken { self.new ≡ record self.old {
          mode = modes.Running;
          storage = stored_by (request_by verb.now self.old.storage) reply.now self.old.storage;
          place = place_after reply.now no_data next;
        } }
        ensures sizes { sizes self.new.storage ≡ sizes self.old.storage }
    {
        put_reply(&mut self.areas, verb, reply);
        self.place = place_after(reply, no_data, next);
        self.mode = Mode::Running;
    }

    /// Takes the reply to the verb of an instruction.
    fn take_reply_at(&mut self, instruction: &Instruction, reply: &Reply)
        requires within { IsInstructionIn (sizes self.old.storage) instruction.now }
        requires fit { IsFitFor (requested_at (Some instruction.now) self.old.storage) reply.now }
        ensures taken { self.new ≡ replied (Some instruction.now) reply.now self.old }
        ensures sizes { sizes self.new.storage ≡ sizes self.old.storage }
    {
        match instruction {
            Instruction::Ask {
                verb,
                no_data,
                next,
            } => self.resume(verb, reply, *no_data, *next),
            _ => {}
        }
    }

    /// Takes the reply to the verb at which the unit waits.
    pub(crate) fn take_reply(&mut self, code: &[Instruction], reply: &Reply)
        requires within { IsWithin (sizes self.old.storage) code.now }
        requires fit { IsFitFor (requested_at (slice_get code.now self.old.place) self.old.storage)
            reply.now }
        ensures taken { self.new
            ≡ replied (slice_get code.now self.old.place) reply.now self.old }
        ensures sizes { sizes self.new.storage ≡ sizes self.old.storage }
    {
        match code.get(self.place) {
            Some(instruction) => self.take_reply_at(instruction, reply),
            None => {}
        }
    }

    /// The call of the verb at which the unit waits.
    pub(crate) fn call(
        &self,
        alloc: Global,
        code: &[Instruction],
    ) -> Result<Option<Call>, AllocError>
        requires { IsWithin (sizes self.now.storage) code.now }
        ensures { IfOk result (IsCallOf (requested_at (slice_get code.now self.now.place)
            self.now.storage)) }
    {
        match code.get(self.place) {
            Some(Instruction::Ask { verb, .. }) => call(alloc, &self.areas, verb),
            _ => Ok(None),
        }
    }
}

impl State {
    /// Returns the state of a unit that is not begun, with these areas.
    pub(crate) fn new(alloc: Global, opening: Rows<Rows<u8>>) -> Result<State, AllocError>
        ensures mode { IfOk result (λ state. state.mode ≡ modes.NotBegun) }
        ensures storage { IfOk result (λ state. state.storage ≡ opening) }
    {
        Ok(State {
            mode: Mode::NotBegun,
            place: 0,
            paragraph: 0,
            stack: ReturnStack::new(alloc),
            areas: areas_of(alloc, opening)?,
            copy: vec![in alloc; 0; MAX_ITEM_LENGTH]?,
            left: 0,
            verbs: 0,
        })
    }

    /// Begins the text, with the names of START.
    pub(crate) fn begin(
        &mut self,
        starts: &[usize],
        initial: Option<u32>,
        names: Option<&[u8; NAMES_LENGTH]>,
    )
        requires { IfSome initial (IsInitialIn (sizes self.old.storage)) }
        ensures begun { self.new ≡ machine_begun starts.now
            (with_names initial (option_map (λ x. x.now) names.entry) self.old.storage)
            unit_limits.statements unit_limits.verbs }
        ensures sizes { sizes self.new.storage ≡ sizes self.old.storage }
    {
        units_have_limits();
        put_names(&mut self.areas, initial, names);
        self.stack.clear();
        self.left = MAX_STATEMENTS;
        self.verbs = MAX_VERBS;
        self.mode = Mode::Running;
        self.enter(starts, 0);
    }

    /// Whether the unit runs, waits or has stopped.
    pub(crate) fn mode(&self) -> Mode
        ensures { result ≡ self.now.mode }
    {
        self.mode
    }
}

/// The place after a reply.
fn place_after(reply: &Reply, no_data: usize, next: usize) -> usize
    ensures { result ≡ place_after reply.now no_data next }
{
    match reply {
        Reply::NoData { .. } => no_data,
        _ => next,
    }
}
