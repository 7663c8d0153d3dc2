//! Laws of the machine. A function here does nothing; its contract is the law.
ghost use Rattle.std.specs.Prelude.{◌≡◌, ◌<◌, ℕ, List, [], ◌∷◌, ◌++◌, Option, Some, slice_get};
ghost use Rattle.com_events.specs.declared.call.Call.{Call as CallOf};
ghost use Rattle.com_events.specs.declared.call.StopReason.{StopReason as ReasonOf};
ghost use Rattle.com_events.specs.declared.reply.Reply.{Reply as ReplyOf};
ghost use Rattle.cob_meaning.specs.Verbs.{Request};
ghost use Rattle.cob_meaning.specs.Meaning.{
  Program,
  Stopped,
  Wants,
  beginning,
  meaning,
  unit_limits,
};
ghost use Rattle.cob_flat.specs.Compiled.{IsCompiled};
ghost use Rattle.cob_flat.specs.declared.code.Instruction.{Instruction as InstructionOf};
ghost use Rattle.cob_run.specs.declared.returns.Mode.TheVariants as mode;
ghost use Rattle.cob_run.specs.Machine.{Machine, machine_begun, replied, requested_at, stepped};
ghost use Rattle.cob_run.specs.Places.{Stands};
ghost use Rattle.cob_run.specs.Weight.{weight};

/// A machine that has just begun stands for its program and names, with no reply.
pub fn machines_begin()
    ensures { (program : Program) (code : List InstructionOf) (starts : List ℕ)
        (names : Option (List ℕ)) → IsCompiled program code starts →
        Stands program code names [] [] (machine_begun starts
        (beginning unit_limits program.layout names []).storage unit_limits.statements
        unit_limits.verbs) }
{}

/// An instruction changes nothing in what a machine stands for.
pub fn machines_step()
    ensures { (program : Program) (code : List InstructionOf) (starts : List ℕ)
        (names : Option (List ℕ)) (replies : List ReplyOf) (calls : List CallOf) (m : Machine) →
        IsCompiled program code starts → m.mode ≡ mode.Running →
        Stands program code names replies calls m →
        Stands program code names replies calls (stepped code starts m) }
{}

/// An instruction brings a machine nearer to its next call or its end.
pub fn machines_come_to_a_call()
    ensures { (code : List InstructionOf) (starts : List ℕ) (m : Machine) →
        m.mode ≡ mode.Running → weight starts (stepped code starts m) < weight starts m }
{}

/// A machine that waits has made the calls that its program makes, and waits with the call that its
/// program wants.
pub fn machines_want_calls()
    ensures { (program : Program) (code : List InstructionOf) (names : Option (List ℕ))
        (replies : List ReplyOf) (calls : List CallOf) (m : Machine) (request : Request) →
        m.mode ≡ mode.Waiting → Stands program code names replies calls m →
        requested_at (slice_get code m.place) m.storage ≡ Some request →
        meaning program names replies ≡ record { calls = calls; ending = Wants request.call } }
{}

/// A machine that gets the reply to its verb stands for one reply more, and one call more.
pub fn machines_take_replies()
    ensures { (program : Program) (code : List InstructionOf) (names : Option (List ℕ))
        (replies : List ReplyOf) (calls : List CallOf) (m : Machine) (reply : ReplyOf)
        (request : Request) → m.mode ≡ mode.Waiting →
        requested_at (slice_get code m.place) m.storage ≡ Some request →
        Stands program code names replies calls m →
        Stands program code names (replies ++ reply ∷ []) (calls ++ request.call ∷ [])
        (replied (slice_get code m.place) reply m) }
{}

/// A machine that has stopped has made the calls of its program, and stopped for the program's
/// reason.
pub fn machines_stop()
    ensures { (program : Program) (code : List InstructionOf) (names : Option (List ℕ))
        (replies : List ReplyOf) (calls : List CallOf) (m : Machine) (reason : ReasonOf) →
        m.mode ≡ mode.Stopped reason → Stands program code names replies calls m →
        meaning program names replies ≡ record { calls = calls; ending = Stopped reason } }
{}
