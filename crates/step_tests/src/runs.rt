ghost use Rattle.po_ir.specs.Whole.{IsWhole};
ghost use Rattle.po_step.specs.Stepping.{IsStateOf};
ghost use Rattle.po_step.specs.Supporting.{SupportsFit};
ghost use Rattle.step_tests.specs.Bare.{signatures};

use crate::bodies::functions;
use crate::building::{project, start};
use crate::quiet::Quiet;
use crate::reports::{assuming, empty};
use po_base::{Memory, Out};
use po_core::Report;
use po_ir::Project;
use po_meaning::State;
use po_memory::{Frame, Memory2, Value};
use po_pred::{Pred, Rule};
use po_step::{Step, step_once};
use std::alloc::Global;
use std::test::Fail;

/// Writes the number in a register behind a sign, where there is one.
fn tell_number(out: &mut Out, sign: &[u8], frame: &Frame, register: usize) -> Result<(), Memory> {
    if let Some(Some(Value::Number(v))) = frame.regs.get(register) {
        out.add(sign)?;
        out.add_whole(*v)?;
    }
    Ok(())
}

/// Writes a `+` for each block that is alive and a `-` for each that ended.
fn tell_blocks(out: &mut Out, m: &Memory2) -> Result<(), Memory> {
    for block in m.blocks.as_slice() {
        if block.alive {
            out.add(b"+")?;
        } else {
            out.add(b"-")?;
        }
    }
    Ok(())
}

/// Writes the function and the node at which the running frame stands, the numbers in its parameter and in its variable, and the blocks.
fn tell_place(out: &mut Out, s: &State) -> Result<(), Memory> {
    let frames = s.frames.as_slice();
    if let Some(top) = frames.last() {
        out.add_number(top.function.0)?;
        out.add(b".")?;
        out.add_number(top.node.0)?;
        tell_number(out, b"=", top, 0)?;
        tell_number(out, b",", top, 1)?;
        tell_blocks(out, &s.memory)?;
        out.add(b" ")?;
    }
    Ok(())
}

fn tell_end(out: &mut Out, step: Step) -> Result<(), Memory> {
    match step {
        Step::Next => out.add(b"next"),
        Step::Ended => out.add(b"ended"),
        Step::Violated {
            function,
            node,
            index,
        } => {
            out.add(b"violated ")?;
            out.add_number(function.0)?;
            out.add(b".")?;
            out.add_number(node.0)?;
            out.add(b" ")?;
            out.add_number(index)
        }
    }
}

/// The places through which a run goes, twenty at most, and its end.
fn told(alloc: Global, p: &Project, report: &Report<Pred, Rule>, s: State) -> Result<Out, Memory>
    requires whole { IsWhole signatures p.now }
    requires supports { SupportsFit p.now report.now.lines }
    requires belongs { IsStateOf p.now s }
{
    let mut out = Out::new(alloc);
    let mut s = s;
    for _ in 0..20 {
        tell_place(&mut out, &s)?;
        let step = step_once(alloc, &Quiet, p, report, &mut s)?;
        if step != Step::Next {
            tell_end(&mut out, step)?;
            return Ok(out);
        }
    }
    Ok(out)
}

/// Whether the run that starts at the function with the argument goes so, where nothing is assumed.
#[tactic(auto, using(crate::proofs::Supported::supports_none))]
fn goes(alloc: Global, n: u32, argument: i128, expected: &[u8]) -> Result<bool, Memory> {
    match project(alloc, functions(alloc)?, 16)? {
        None => Ok(false),
        Some(p) => match start(alloc, &p, n, argument)? {
            None => Ok(false),
            Some(s) => Ok(told(alloc, &p, &empty(alloc), s)?.bytes() == expected),
        },
    }
}

/// Whether it goes so where function 2 assumes that its argument isn't 0.
#[tactic(auto, using(crate::proofs::Supported::supports_fit))]
fn goes_assuming(alloc: Global, n: u32, argument: i128, expected: &[u8]) -> Result<bool, Memory> {
    match project(alloc, functions(alloc)?, 16)? {
        None => Ok(false),
        Some(p) => match start(alloc, &p, n, argument)? {
            None => Ok(false),
            Some(s) => Ok(told(alloc, &p, &assuming(alloc)?, s)?.bytes() == expected),
        },
    }
}

#[test]
fn a_loop_counts_down_to_its_end_and_gives_the_caller_its_result(
    rt: HostRuntime,
) -> Result<(), Fail> {
    assert!(rt;
        goes(
            rt.alloc(),
            0,
            2,
            b"0.0=2 1.0=2 1.1=2 1.2=1 1.0=1 1.1=1 1.2=0 1.0=0 1.3=0 0.1=0 ended"
        )?
    );
    Ok(())
}

#[test]
fn calls_within_calls_return_to_the_frame_that_waits_next(rt: HostRuntime) -> Result<(), Fail> {
    assert!(rt;
        goes(
            rt.alloc(),
            5,
            0,
            b"5.0=0 0.0=0 1.0=0 1.3=0 0.1=0 5.1=0 ended"
        )?
    );
    Ok(())
}

#[test]
fn a_run_that_jumps_back_goes_on_without_an_end(rt: HostRuntime) -> Result<(), Fail> {
    let twenty =
        b"4.0=7 4.0=7 4.0=7 4.0=7 4.0=7 4.0=7 4.0=7 4.0=7 4.0=7 4.0=7 4.0=7 4.0=7 4.0=7 4.0=7 4.0=7 4.0=7 4.0=7 4.0=7 4.0=7 4.0=7 ";
    assert!(rt; goes(rt.alloc(), 4, 7, twenty)?);
    Ok(())
}

#[test]
fn a_run_is_violated_by_the_divisor_0_and_where_it_must_not_come(
    rt: HostRuntime,
) -> Result<(), Fail> {
    assert!(rt; goes(rt.alloc(), 2, 0, b"2.0=0 violated 2.0 0")?);
    assert!(rt; goes(rt.alloc(), 2, 2, b"2.0=2 2.1=0 ended")?);
    assert!(rt; goes(rt.alloc(), 3, 5, b"3.0=5 3.1=5 violated 3.1 0")?);
    Ok(())
}

#[test]
fn a_slot_in_a_loop_is_a_new_block_each_time_and_gives_what_was_stored(
    rt: HostRuntime,
) -> Result<(), Fail> {
    let first = b"6.0=2 7.0=2 7.1=2 7.2=2+ 7.3=2+ 7.4=2+ 7.5=2,2+ 7.6=2,2- 7.7=1,2- ";
    let second = b"7.0=1,2- 7.1=1,2- 7.2=1,2-+ 7.3=1,2-+ 7.4=1,2-+ 7.5=1,1-+ 7.6=1,1-- 7.7=0,1-- ";
    let mut expected = Out::new(rt.alloc());
    expected.add(first)?;
    expected.add(second)?;
    expected.add(b"7.0=0,1-- 7.8=0,1-- 6.1=0-- ended")?;
    assert!(rt; goes(rt.alloc(), 6, 2, expected.bytes())?);
    Ok(())
}

#[test]
fn each_frame_has_a_slot_of_its_own_that_ends_with_it(rt: HostRuntime) -> Result<(), Fail> {
    let down = b"11.0=1 11.1=1+ 11.2=1+ 11.3=1+ 11.4=1+ 11.5=0+ ";
    let within = b"11.0=0+ 11.1=0++ 11.2=0++ 11.3=0++ 11.6=0++ 11.7=0++ ";
    let mut expected = Out::new(rt.alloc());
    expected.add(down)?;
    expected.add(within)?;
    expected.add(b"11.6=0+- 11.7=1+- ended")?;
    assert!(rt; goes(rt.alloc(), 11, 1, expected.bytes())?);
    Ok(())
}

#[test]
fn a_slot_is_read_only_behind_a_store_and_before_its_end(rt: HostRuntime) -> Result<(), Fail> {
    let before = b"8.0=9 8.1=9+ 8.2=9+ violated 8.2 5";
    assert!(rt; goes(rt.alloc(), 8, 9, before)?);
    let after = b"9.0=9 9.1=9+ 9.2=9+ 9.3=9+ 9.4=9- violated 9.4 2";
    assert!(rt; goes(rt.alloc(), 9, 9, after)?);
    let anew = b"10.0=9 10.1=9+ 10.2=9+ 10.3=9- 10.4=9-+ violated 10.4 2";
    assert!(rt; goes(rt.alloc(), 10, 9, anew)?);
    assert!(rt; goes(rt.alloc(), 12, 9, b"12.0=9 violated 12.0 0")?);
    Ok(())
}

#[test]
fn what_a_function_assumes_is_violated_at_the_call_behind_the_primary_obligations(
    rt: HostRuntime,
) -> Result<(), Fail> {
    assert!(rt; goes_assuming(rt.alloc(), 13, 1, b"13.0=1 13.1=1,0 violated 13.1 1")?);
    let kept = b"13.0=3 13.1=3,2 2.0=2 2.1=0 13.2=3,0 ended";
    assert!(rt; goes_assuming(rt.alloc(), 13, 3, kept)?);
    assert!(rt; goes_assuming(rt.alloc(), 14, 5, b"14.0=5 violated 14.0 0")?);
    assert!(rt; goes_assuming(rt.alloc(), 15, 5, b"15.0=5 violated 15.0 0")?);
    Ok(())
}

#[test]
fn what_is_not_assumed_is_violated_in_the_called_function(rt: HostRuntime) -> Result<(), Fail> {
    assert!(rt; goes(rt.alloc(), 13, 1, b"13.0=1 13.1=1,0 2.0=0 violated 2.0 0")?);
    assert!(rt; goes(rt.alloc(), 15, 5, b"15.0=5 2.0=0 violated 2.0 0")?);
    Ok(())
}
