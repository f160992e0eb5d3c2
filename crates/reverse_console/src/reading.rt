// From a script to its orders.
ghost use Rattle.std.specs.Prelude.{◌≡◌, ◌≢◌, ◌⊎◌, ◌≤◌, ◌<◌, ◌^◌, ℕ, List, length, slice_get, Some, MatchResult, IfOk, IfErr};
ghost use Rattle.std.specs.Vec.{vec_len};
ghost use Rattle.plan_types.specs.declared.limits.TheConstants.{MOST_STEPS};
ghost use Rattle.line_texts.specs.declared.fault.Fault.{Fault as AFault};
ghost use Rattle.line_texts.specs.Prelude.{GivesUnlessMemory};
ghost use Rattle.reverse_console.specs.declared.order.Order.{Order as AnOrder};
ghost use Rattle.reverse_console.specs.Answer.{IsOrder};
ghost use Rattle.reverse_console.specs.Script.{IsScript};
ghost use Rattle.reverse_console.specs.ScriptFaults.{HasFirstFault};
ghost use Rattle.reverse_console.specs.ScriptParser.{script_of};

use crate::line::line;
use crate::order::Order;
use line_texts::{Fault, Lines, push_found};
use std::alloc::Global;

/// The orders of a script, for a console in a run of so many steps, or its first fault. It reads the text once, and
/// takes memory for the list alone. The rules of a fault are 1 NotCommand, 2 Number, 3 Address and 4 Range.
pub fn read_orders(alloc: Global, bytes: &[u8], count: u32) -> Result<Vec<Order>, Fault>
    requires few { length bytes.now < 2 ^ 31 }
    requires count { count ≤ MOST_STEPS }
    // The script means the orders that are read. A script that means orders is read, unless memory runs out.
    ensures found { IfOk result (λ orders. IsScript count bytes.now orders.items) }
    ensures only { (orders : List AnOrder) → IsScript count bytes.now orders →
        MatchResult result (λ v. v.items ≡ orders) (λ e. e ≡ Fault.Memory) }

    // A refusal has the first fault. Bytes with a fault are refused for it, unless memory runs out.
    ensures refused { IfErr result (λ e. e ≢ Fault.Memory → HasFirstFault count bytes.now e) }
    ensures first { (e : AFault) → HasFirstFault count bytes.now e →
        MatchResult result (λ _. ⊥) (λ answer. (answer ≡ e) ⊎ (answer ≡ Fault.Memory)) }

    // Each order is allowed for the console, and a count of orders fits.
    ensures orders { IfOk result (λ orders. (i : ℕ) (order : AnOrder) → slice_get orders.items i ≡ Some order → IsOrder count order) }
    ensures few { IfOk result (λ orders. vec_len orders < 2 ^ 32) }
{
    read_lines(alloc, bytes, count)
}

#[tactic(auto, unfolding(crate::specs::ScriptParser::script_of))]
fn read_lines(alloc: Global, bytes: &[u8], count: u32) -> Result<Vec<Order>, Fault>
    requires { length bytes.now < 2 ^ 31 }
    ensures read { GivesUnlessMemory (λ orders. orders.items) result (script_of count bytes.now) }
    ensures few { IfOk result (λ orders. vec_len orders < 2 ^ 32) }
{
    let mut orders = Vec::new(alloc);
    let mut lines = Lines::new(bytes);
    let mut number = 1;
    'lines: while let Some(text) = lines.next() {
        let found = match line(text, count) {
            Ok(found) => found,
            Err(fault) => return Err(fault.at(number)),
        };
        push_found(&mut orders, found)?;
        number += 1;
    }
    Ok(orders)
}
