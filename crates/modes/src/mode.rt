//! What the command line asks for.
ghost use Rattle.std.specs.Prelude.{◌≡◌, ◌<◌, ◌≤◌, IfOk, IfErr};
ghost use Rattle.modes.specs.Program.{task_of, NamesBelow};

use crate::fault::Fault;
use script::number;
use wire_frame::PoolId;

/// What the command line asks for.
#[derive(Clone, Copy, Debug, PartialEq, Eq)]
pub enum Mode {
    /// Print every answer.
    Run,
    /// Print what this pool's lone function is given.
    Keep(u64),
    /// Run one function on that, and print what it observes.
    Lone(u64),
}

/// What the program is to do.
#[derive(Clone, Copy, Debug, PartialEq, Eq)]
pub enum Command {
    /// Do the script by one thread, in a mode.
    Alone(Mode),
    /// Do it by a thread for each guest.
    Threads,
}

impl Command {
    /// What the words after the program's name ask for: `threads`, or a mode. Any others are [`Fault::Usage`].
    pub fn from_words(words: &[String]) -> Result<Command, Fault> {
        match words {
            [name] if name.as_bytes() == b"threads".as_slice() => Ok(Command::Threads),
            _ => Ok(Command::Alone(Mode::from_words(words)?)),
        }
    }
}

/// The same, of a pool that has a function.
#[derive(Clone, Copy, Debug, PartialEq, Eq)]
pub enum Task {
    /// Print every answer.
    Run,
    /// Print what this pool's lone function is given.
    Keep(PoolId),
    /// Run one function on that, and print what it observes.
    Lone(PoolId),
}

impl Mode {
    /// The mode that the words after the program's name ask for: `run`, `keep P` or `lone P`, where P is a number below
    /// 2^64. Any others are [`Fault::Usage`].
    pub fn from_words(words: &[String]) -> Result<Mode, Fault> {
        match words {
            [name] if name.as_bytes() == b"run".as_slice() => Ok(Mode::Run),
            [name, pool] => {
                let pool = number(pool.as_bytes()).ok_or(Fault::Usage)?;
                match name.as_bytes() {
                    b"keep" => Ok(Mode::Keep(pool)),
                    b"lone" => Ok(Mode::Lone(pool)),
                    _ => Err(Fault::Usage),
                }
            }
            _ => Err(Fault::Usage),
        }
    }

    /// The mode's task on a device of so many functions, at most 64. A pool that isn't below that is [`Fault::NoSuchVf`].
    pub fn task(self, functions: u8) -> Result<Task, Fault>
        requires { functions ≤ 64 }
        ensures ok { IfOk result (λ task. (task ≡ task_of self) × NamesBelow functions task) }
        ensures err { IfErr result
            (λ e. (e ≡ Fault.NoSuchVf) × (NamesBelow functions (task_of self) → ⊥)) }
    {
        match self {
            Mode::Run => Ok(Task::Run),
            Mode::Keep(pool) => Ok(Task::Keep(pool_below(pool, functions)?)),
            Mode::Lone(pool) => Ok(Task::Lone(pool_below(pool, functions)?)),
        }
    }
}

// The pool of that number, where it is below `functions`.
fn pool_below(pool: u64, functions: u8) -> Result<PoolId, Fault>
    requires { functions ≤ 64 }
    ensures ok { IfOk result (λ p. (p ≡ pool) × (p < functions)) }
    ensures err { IfErr result (λ e. (e ≡ Fault.NoSuchVf) × (functions ≤ pool)) }
{
    if pool >= u64::from(functions) {
        return Err(Fault::NoSuchVf);
    }
    match PoolId::new(pool as u8) {
        Some(pool) => Ok(pool),
        None => unreachable!(),
    }
}
