// Whether the files together are small enough.
ghost use Rattle.std.specs.Prelude.{◌≡◌, ◌+◌, sum_by, IfOk, OnOk};
ghost use Rattle.std.specs.Result.{IfErr};
ghost use Rattle.po_symbols.specs.Linking.{weight_of, unit_weight, unit_functions, NoCause, Fits, IsRefused};

use crate::link_fail::LinkFail;
use po_base::Memory;
use po_ir::{Function, Unit};

/// How great the sum of nodes times registers may be.
const GREATEST_WEIGHT: u64 = 1 << 24;

/// How many functions there may be.
const MOST_FUNCTIONS: u64 = 65_535;

/// The sum of both. What 64 bits don't count is want of memory: no lists are so long.
fn sum_of(a: u64, b: u64) -> Result<u64, Memory>
    ensures { IfOk result (λ sum. sum ≡ a + b) }
{
    match a.checked_add(b) {
        Some(sum) => Ok(sum),
        None => Err(Memory),
    }
}

/// The nodes times the registers.
fn weight(function: &Function) -> Result<u64, Memory>
    ensures { IfOk result (λ weight. weight ≡ weight_of function.now) }
{
    let nodes = function.graph.nodes.len() as u64;
    match nodes.checked_mul(function.graph.regs.len() as u64) {
        Some(weight) => Ok(weight),
        None => Err(Memory),
    }
}

fn weight_of_all(functions: &[Function]) -> Result<u64, Memory>
    ensures { IfOk result (λ sum. sum ≡ sum_by weight_of functions.now) }
{
    let mut sum = 0;
    for function in functions {
        sum = sum_of(sum, weight(function)?)?;
    }
    Ok(sum)
}

fn total_weight(units: &[Unit]) -> Result<u64, Memory>
    ensures { IfOk result (λ sum. sum ≡ sum_by unit_weight units.now) }
{
    let mut sum = 0;
    for unit in units {
        sum = sum_of(sum, weight_of_all(unit.functions.as_slice())?)?;
    }
    Ok(sum)
}

fn total_functions(units: &[Unit]) -> Result<u64, Memory>
    ensures { IfOk result (λ sum. sum ≡ sum_by unit_functions units.now) }
{
    let mut sum = 0;
    for unit in units {
        sum = sum_of(sum, unit.functions.len() as u64)?;
    }
    Ok(sum)
}

/// Whether the files together are small enough. In time linear in the number of functions.
pub fn check_sizes(units: &[Unit]) -> Result<(), LinkFail>
    ensures ok { OnOk result (Fits units.now) }
    ensures err { NoCause units.now → IfErr result (IsRefused units.now) }
{
    let weight = total_weight(units)?;
    if weight > GREATEST_WEIGHT {
        return Err(LinkFail::TooLarge { count: weight });
    }
    let count = total_functions(units)?;
    if count > MOST_FUNCTIONS {
        return Err(LinkFail::TooLarge { count });
    }
    Ok(())
}
