ghost use Rattle.lucy_stream.specs.RunningLaws.{StepsMakeSoundSchedules};

/// Where each horizon's events lead from all operations of the horizon before to all of its own, the events are a whole run
/// for every horizon.
pub fn steps_make_sound_schedules()
    ensures { StepsMakeSoundSchedules }
{}
