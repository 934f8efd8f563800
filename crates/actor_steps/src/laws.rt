// The law of schedules.
ghost use Rattle.actor_steps.specs.Agree.{SchedulesAgree, NothingIsLeft, UpdatesAreLawful, BytesAreRead, SchedulesKeepPadding};

/// The law of schedules. This function does nothing: its contract is the law.
///
/// Where no byte holds bits of rows of two actors and the plain update meets no fault, the bytes after any schedule, and after the micro-steps
/// that it left, actor by actor, are those of the table with the rows of the plain update. Then no actor has a micro-step left. With these
/// rows the table is lawful, and the rows of a lawful table are what its bytes are read as. After each schedule the padding of the bytes, and
/// of what each actor loaded of them, is 0.
pub fn schedules_agree()
    ensures bytes { SchedulesAgree }
    ensures left { NothingIsLeft }
    ensures lawful { UpdatesAreLawful }
    ensures read { BytesAreRead }
    ensures padded { SchedulesKeepPadding }
{}
