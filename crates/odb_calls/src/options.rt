//! Options as numbers.

ghost use Rattle.std.specs.Prelude.{◌≡◌, ◌≢◌, Some, None, IfSome, false};
ghost use Rattle.odb_calls.specs.Options as options;
ghost use Rattle.odb_calls.specs.Returns.{NamesNone};

use odb_check::Seed;
use odb_engine::{Form, Setup, Task};
use odb_reply::Strictness;
use odb_sched::{MAX_WIDTH, Mode, Order, Policy};

/// Returns the seed that a number is. 0 is no seed.
pub fn seed_of(seed: u64) -> Seed
    ensures none { seed ≡ 0 → result.number ≡ None }
    ensures some { seed ≢ 0 → result.number ≡ Some seed }
{
    if seed == 0 {
        Seed::none()
    } else {
        Seed::new(seed)
    }
}

/// Returns the setup with this form and with the seed that a number is, by which faults are printed as they are.
pub fn setup_of(form: Form, seed: u64) -> Setup
    ensures form { result.form ≡ form }
    ensures located { result.faults.located ≡ false }
    ensures none { seed ≡ 0 → result.seed.number ≡ None }
    ensures some { seed ≢ 0 → result.seed.number ≡ Some seed }
{
    Setup::new(form, seed_of(seed))
}

/// Returns the mode that a number names, or `None` if it may not be.
pub fn mode_of(mode: u32) -> Option<Mode>
    ensures some { IfSome result (options.IsMode mode) }
    ensures none { result ≡ None → NamesNone (options.IsMode mode) }
{
    match mode {
        0 => Some(Mode::Continue),
        1 => Some(Mode::Stop),
        _ => None,
    }
}

/// Returns the policy that two numbers name, or `None` if one of them may not be.
pub fn policy_of(mode: u32, width: u32) -> Option<Policy>
    ensures some { IfSome result (options.IsPolicy mode width) }
    ensures none { result ≡ None → NamesNone (options.IsPolicy mode width) }
{
    let mode = mode_of(mode)?;
    if width > MAX_WIDTH {
        return None;
    }
    Policy::new(mode, width)
}

/// Returns the form that a number names, or `None` if it may not be.
pub fn form_of(form: u32) -> Option<Form>
    ensures some { IfSome result (options.IsForm form) }
    ensures none { result ≡ None → NamesNone (options.IsForm form) }
{
    match form {
        0 => Some(Form::Lines),
        1 => Some(Form::Json),
        _ => None,
    }
}

/// Returns the order that a number names, or `None` if it may not be.
pub fn order_of(order: u32) -> Option<Order>
    ensures some { IfSome result (λ named. order ≡ options.order_number named) }
    ensures none { result ≡ None → NamesNone (λ named. order ≡ options.order_number named) }
{
    match order {
        0 => Some(Order::First),
        1 => Some(Order::Last),
        2 => Some(Order::Wide),
        _ => None,
    }
}

/// Returns the answer that a number is, 0 for no and 1 for yes, or `None` if it may not be.
fn flag_of(number: u32) -> Option<bool>
    ensures some { IfSome result (λ named. number ≡ options.flag_number named) }
    ensures none { result ≡ None → NamesNone (λ named. number ≡ options.flag_number named) }
{
    match number {
        0 => Some(false),
        1 => Some(true),
        _ => None,
    }
}

/// Returns how strict a match is by this number, or `None` if it may not be.
fn strict_of(number: u32) -> Option<Option<Strictness>>
    ensures some { IfSome result (λ named. number ≡ options.strict_number named) }
    ensures none { result ≡ None → NamesNone (λ named. number ≡ options.strict_number named) }
{
    match number {
        0 => Some(None),
        1 => Some(Some(Strictness::Requests)),
        2 => Some(Some(Strictness::Units)),
        _ => None,
    }
}

/// Returns the match that two numbers name, or `None` if one of them may not be.
pub fn match_of(mode: u32, strict: u32) -> Option<Task>
    ensures some { IfSome result (options.IsMatch mode strict) }
    ensures none { result ≡ None → NamesNone (options.IsMatch mode strict) }
{
    let mode = mode_of(mode)?;
    let strict = strict_of(strict)?;
    Some(Task::Match { mode, strict })
}

/// Returns the run that two numbers name, or `None` if one of them may not be.
pub fn run_of(mode: u32, width: u32) -> Option<Task>
    ensures some { IfSome result (options.IsRun mode width) }
    ensures none { result ≡ None → NamesNone (options.IsRun mode width) }
{
    let policy = policy_of(mode, width)?;
    Some(Task::Run { policy })
}

/// Returns the replay that four numbers name, or `None` if one of them may not be.
pub fn replay_of(mode: u32, width: u32, order: u32, trace: u32) -> Option<Task>
    ensures some { IfSome result (options.IsReplay mode width order trace) }
    ensures none { result ≡ None → NamesNone (options.IsReplay mode width order trace) }
{
    Some(Task::Replay {
        policy: policy_of(mode, width)?,
        order: order_of(order)?,
        traced: flag_of(trace)?,
    })
}
