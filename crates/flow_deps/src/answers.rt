//! Answers to questions about systems.

ghost use Rattle.std.specs.Prelude.{◌≡◌, ◌≤◌, ◌++◌, IfOk, IsTrue, MatchOption};
ghost use Rattle.affine_form.specs.Form.{variables};
ghost use Rattle.affine_form.specs.Shown.{Follows, minus_one};
ghost use Rattle.affine_form.specs.System.{AllOver};
ghost use Rattle.flow_deps.specs.Answers.{IsAnswered, HasShortAnswer, HasNoShort, IsAsShort, Answers, following, pointless};
ghost use Rattle.int_sets.specs.ShortList.{HasShortList};
ghost use Rattle.iolb_model.specs.declared.limits.TheConstants.{VARIABLES};

use crate::wanted::Wanted;
use affine_form::{Form, Memory, Multipliers, System, system_of};
use int_sets::{prove, short_list};
use iolb_model::limits;
use std::alloc::Global;

/// Multipliers that show the goal from the rows of the system, as short as is wanted. None only where no short list does.
fn answered(
    alloc: Global,
    wanted: Wanted,
    system: &System,
    goal: &Form,
) -> Result<Option<Multipliers>, Memory>
    requires { variables goal.now ≡ system.now.vars }
    ensures { IfOk result (λ found. MatchOption found (¬ HasShortAnswer (record { system = system.now; goal = goal.now }))
        (λ shown. IsAnswered (record { system = system.now; goal = goal.now }) shown × IsAsShort wanted shown)) }
{
    let _rows = system.rows();
    match wanted {
        Wanted::Short => short_list(alloc, system, goal),
        Wanted::Any => prove(alloc, system, goal),
    }
}

/// Whether a goal is found to follow from the rows of the system. Where a short list shows it, it is found.
pub fn is_answered(alloc: Global, system: &System, goal: &Form) -> Result<bool, Memory>
    requires { variables goal.now ≡ system.now.vars }
    ensures follows { IfOk result (λ yes. IsTrue yes → Follows system.now goal.now) }
    ensures short { IfOk result (λ yes. HasShortList system.now goal.now → IsTrue yes) }
{
    match prove(alloc, system, goal)? {
        Some(_) => Ok(true),
        None => Ok(false),
    }
}

/// Multipliers that show each goal from the rows of the system. None only where some goal has no short list.
pub fn goals_answered(
    alloc: Global,
    wanted: Wanted,
    system: &System,
    goals: &[Form],
) -> Result<Option<Vec<Multipliers>>, Memory>
    requires { AllOver system.now.vars goals.now }
    ensures { IfOk result (λ found. MatchOption found (HasNoShort (following system.now goals.now)) (λ all. Answers wanted (following system.now goals.now) all.items)) }
{
    let mut all = Vec::new(alloc);
    for goal in goals {
        let Some(shown) = answered(alloc, wanted, system, goal)? else {
            return Ok(None);
        };
        all.push(shown)?;
    }
    Ok(Some(all))
}

/// Multipliers that show that no point meets all rows. None only where no short list does, or the rows are too many.
pub fn system_answered(
    alloc: Global,
    wanted: Wanted,
    vars: usize,
    rows: &[Form],
) -> Result<Option<Multipliers>, Memory>
    requires few { vars ≤ VARIABLES }
    requires over { AllOver vars rows.now }
    ensures { IfOk result (λ found. MatchOption found (¬ HasShortAnswer (pointless (record { vars = vars; rows = rows.now })))
        (λ shown. IsAnswered (pointless (record { vars = vars; rows = rows.now })) shown × IsAsShort wanted shown)) }
{
    if rows.len() > limits::ROWS {
        return Ok(None);
    }
    let system = system_of(alloc, vars, rows)?;
    let goal = minus_one(alloc, vars)?;
    answered(alloc, wanted, &system, &goal)
}

/// The form that is -1 everywhere.
fn minus_one(alloc: Global, vars: usize) -> Result<Form, Memory>
    requires { vars ≤ VARIABLES }
    ensures { IfOk result (λ form. form ≡ minus_one vars) }
{
    let coef = vec![in alloc; 0; vars]?;
    Ok(Form::new(coef, -1))
}

/// Answers, and then more.
pub fn with_answers(
    all: Vec<Multipliers>,
    more: Vec<Multipliers>,
) -> Result<Vec<Multipliers>, Memory>
    ensures { IfOk result (λ both. both.items ≡ all.items ++ more.items) }
{
    let mut both = all;
    for shown in more {
        both.push(shown)?;
    }
    Ok(both)
}
