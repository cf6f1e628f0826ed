//! Multipliers that are found, and short lists compared with all there are.

ghost use Rattle.std.specs.Prelude.{◌≡◌, ◌≤◌, unsigned_abs, IfOk};
ghost use Rattle.affine_form.specs.Form.{variables};

use affine_form::{Form, Multipliers, System, entails};
use int_sets::prove;
use std::alloc::Global;
use std::test::Fail;

/// How many variables the drawn systems have.
const VARS: usize = 3;

/// A number drawn after another (a linear congruence; Knuth, The Art of Computer Programming, volume 2, section 3.3.4).
fn next(seed: u64) -> u64 {
    seed.wrapping_mul(6_364_136_223_846_793_005)
        .wrapping_add(1_442_695_040_888_963_407)
}

/// A number from -2 to 2.
fn drawn(seed: u64) -> i128
    ensures { unsigned_abs result ≤ 2 }
{
    i128::from((seed >> 33) % 5) - 2
}

/// A drawn form.
fn form(alloc: Global, seed: u64) -> Result<Form, Fail>
    ensures { IfOk result (λ form. variables form ≡ 3) }
{
    let first = next(seed);
    let second = next(first);
    let third = next(second);
    let coef = vec![in alloc; drawn(first), drawn(second), drawn(third)]?;
    Ok(Form::new(coef, drawn(next(third))))
}

/// The system with a row more, while there is room.
fn with_row(system: System, row: Form) -> System
    requires { variables row ≡ system.vars }
    ensures { result.vars ≡ system.vars }
{
    let mut system = system;
    if system.rows().len() < 128 {
        let _ = system.push(row);
    }
    system
}

/// A system of so many drawn rows.
fn system(alloc: Global, rows: u64, seed: u64) -> Result<System, Fail>
    ensures { IfOk result (λ system. system.vars ≡ 3) }
{
    let mut system = System::new(alloc, VARS);
    let mut seed = seed;
    for _ in 0..rows {
        seed = next(next(next(next(next(seed)))));
        system = with_row(system, form(alloc, seed)?);
    }
    Ok(system)
}

/// What the rows, each as often as a number says in base 3, sum up to in a variable, or in their constants.
fn sum_of(system: &System, code: u64, variable: Option<usize>) -> i128 {
    let mut sum = 0i128;
    let mut rest = code;
    for row in system.rows() {
        let number = match variable {
            Some(variable) => row.coef().get(variable).copied().unwrap_or(0),
            None => row.constant(),
        };
        sum = sum.wrapping_add(number.wrapping_mul(i128::from(rest % 3)));
        rest /= 3;
    }
    sum
}

/// How many rows the number takes.
fn taken(code: u64) -> u64 {
    let mut count = 0u64;
    for place in 0..5u32 {
        let mut rest = code;
        for _ in 0..place {
            rest /= 3;
        }
        if rest % 3 != 0 {
            count = count.wrapping_add(1);
        }
    }
    count
}

/// Whether some short list shows the goal from a system of five rows, by trying each.
fn has_short_list(system: &System, goal: &Form) -> bool {
    for code in 0..243 {
        let rest = goal.constant().wrapping_sub(sum_of(system, code, None));
        let mut same = taken(code) <= 4 && rest >= 0 && rest < 1 << 48;
        for (variable, coefficient) in goal.coef().iter().enumerate() {
            if sum_of(system, code, Some(variable)) != *coefficient {
                same = false;
            }
        }
        if same {
            return true;
        }
    }
    false
}

/// Whether multipliers are a short list.
fn is_short(shown: &Multipliers) -> bool {
    shown.c() == 1 && shown.m().len() <= 4 && shown.m().iter().all(|weight| weight.1 <= 2)
}

#[test]
fn rows_show_goals(rt: HostRuntime) -> Result<(), Fail> {
    let alloc = rt.alloc();
    let goal = Form::new(vec![in alloc; 1]?, 0);
    assert!(rt; matches!(prove(alloc, &System::new(alloc, 1), &goal), Ok(None)));
    let system = with_row(System::new(alloc, 1), Form::new(vec![in alloc; 1]?, -1));
    let shown = prove(alloc, &system, &goal)?.expect(&rt, "the row shows the goal");
    assert_eq!(rt; shown.c(), 1);
    assert_eq!(rt; shown.m0(), 1);
    assert_eq!(rt; shown.m(), [(0u8, 1u64)].as_slice());
    Ok(())
}

#[test]
fn longer_lists_are_found(rt: HostRuntime) -> Result<(), Fail> {
    let alloc = rt.alloc();
    let system = with_row(System::new(alloc, 1), Form::new(vec![in alloc; 2]?, -1));
    let half = Form::new(vec![in alloc; 1]?, 0);
    let shown = prove(alloc, &system, &half)?.expect(&rt, "twice the goal is the row and 1");
    assert_eq!(rt; shown.c(), 2);
    assert_eq!(rt; shown.m(), [(0u8, 1u64)].as_slice());
    let fivefold = Form::new(vec![in alloc; 10]?, -5);
    let shown = prove(alloc, &system, &fivefold)?.expect(&rt, "the goal is the row five times");
    assert_eq!(rt; shown.m(), [(0u8, 5u64)].as_slice());
    Ok(())
}

#[test]
fn contradictions_are_found(rt: HostRuntime) -> Result<(), Fail> {
    let alloc = rt.alloc();
    let ring = System::new(alloc, 5);
    let ring = with_row(ring, Form::new(vec![in alloc; 1, -1, 0, 0, 0]?, -1));
    let ring = with_row(ring, Form::new(vec![in alloc; 0, 1, -1, 0, 0]?, 0));
    let ring = with_row(ring, Form::new(vec![in alloc; 0, 0, 1, -1, 0]?, 0));
    let ring = with_row(ring, Form::new(vec![in alloc; 0, 0, 0, 1, -1]?, 0));
    let ring = with_row(ring, Form::new(vec![in alloc; -1, 0, 0, 0, 1]?, 0));
    let contradiction = Form::new(vec![in alloc; 0, 0, 0, 0, 0]?, -1);
    let shown = prove(alloc, &ring, &contradiction)?.expect(&rt, "the rows add up to -1");
    assert_eq!(rt; shown.m().len(), 5);
    Ok(())
}

#[test]
fn short_lists_are_found_where_there_are_some(rt: HostRuntime) -> Result<(), Fail> {
    let alloc = rt.alloc();
    let mut found = 0u32;
    for draw in 0..400u64 {
        let system = system(alloc, 5, draw)?;
        let goal = form(alloc, next(draw))?;
        let expected = has_short_list(&system, &goal);
        match prove(alloc, &system, &goal)? {
            Some(shown) => {
                assert!(rt; entails(&system, &goal, &shown));
                assert_eq!(rt; is_short(&shown), expected);
            }
            None => assert!(rt; !expected),
        }
        if expected {
            found = found.wrapping_add(1);
        }
    }
    assert!(rt; found > 20 && found < 380);
    Ok(())
}
