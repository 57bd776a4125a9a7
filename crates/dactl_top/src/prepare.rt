//! All that a run takes, made before it starts.

ghost use Rattle.std.specs.Prelude.{◌≡◌, ◌*◌, IfOk, IfErr};
ghost use Rattle.dactl_crew.specs.Preparing.{IsUnprepared};
ghost use Rattle.dactl_model.specs.Programs.{IsValid};
ghost use Rattle.dactl_settings.specs.Limits.{IsWithinLimits};
ghost use Rattle.dactl_top.specs.Preparing.{IsPrepared};
ghost use Rattle.dactl_top.specs.Running as spec;

pub use dactl_crew::Unprepared;
use dactl_model::graph::Limits;
use dactl_model::program::Program;
use dactl_print::printer::Numbering;
use dactl_settings::Settings;
use std::alloc::Global;

/// All that a run takes, and the numbering with which its last graph is printed.
#[derive(Drop)]
pub struct Prepared {
    pub crew: dactl_crew::Prepared,
    pub numbering: Numbering,
}

// Four arcs for each node.
fn limits_of(settings: Settings) -> Limits
    requires { IsWithinLimits settings }
    ensures { result ≡ spec.limits_of settings }
{
    Limits {
        nodes: settings.nodes,
        arcs: 4 * settings.nodes,
        budget: settings.budget,
    }
}

/// Takes all the memory of a run.
///
/// # Errors
///
/// `Small` where the first graph does not fit, with what it needs; the program is handed back.
/// `Memory` where there was not the memory for the run or for the numbering; nothing is left then.
pub fn prepare(alloc: Global, settings: Settings, program: Program) -> Result<Prepared, Unprepared>
    requires limits { IsWithinLimits settings }
    requires valid { IsValid program }
    ensures ok { IfOk result (IsPrepared settings program) }
    ensures err { IfErr result (IsUnprepared program (spec.limits_of settings)) }
{
    let crew = match dactl_crew::prepare(
        alloc,
        program,
        limits_of(settings),
        settings.workers,
        settings.steal,
    ) {
        Ok(crew) => crew,
        Err(unprepared) => return Err(unprepared),
    };
    let Ok(numbering) = Numbering::with_room(alloc, settings.nodes) else {
        return Err(Unprepared::Memory);
    };
    Ok(Prepared { crew, numbering })
}
