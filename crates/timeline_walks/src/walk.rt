// A walk over a run.

use crate::moves::{part_back, part_on, steps_back, steps_on};
use crate::order::{Move, Order, order_of, stops_of};
use crate::sum::sum_of;
use case_files::{CaseFault, Inputs, text_of, timeline_of};
use run_timeline::{Hit, Step, Stops, Timeline};
use rv_machine::Steps;
use serde_json::Value;
use std::alloc::{AllocError, Global};
use std::sync::ledger::Ledger;

/// A timeline, its breakpoints and watched ranges, and the greatest place so far.
#[derive(Drop)]
pub struct Walk {
    timeline: Timeline,
    stops: Stops,
    furthest: u32,
}

/// The walk of a value, before its first order.
pub fn walk_of(alloc: Global, inputs: &Inputs, value: &Value) -> Result<Walk, CaseFault> {
    Ok(Walk {
        timeline: timeline_of(alloc, inputs, value)?,
        stops: stops_of(alloc, "")?,
        furthest: 0,
    })
}

impl Walk {
    /// Takes the walk, and returns the first deviation.
    pub fn first_wrong<L: Ledger>(
        &mut self,
        alloc: Global,
        value: &Value,
        steps: &mut Steps<L>,
    ) -> Result<Option<String>, AllocError> {
        let Some(orders) = value.get("orders").and_then(Value::as_array) else {
            return Ok(Some(String::from_str(alloc, "has no orders")?));
        };
        for order in orders {
            let wrong = self.wrong_of(alloc, order.as_str().unwrap_or(""), steps)?;
            if wrong.is_some() {
                return Ok(wrong);
            }
        }
        let sum = format!(in alloc; "{:x}", sum_of(self.timeline.state()))?;
        told(
            alloc,
            "sum",
            text_of(value, "sum").unwrap_or(""),
            sum.as_str(),
        )
    }

    // The deviation of an order, if any.
    fn wrong_of<L: Ledger>(
        &mut self,
        alloc: Global,
        text: &str,
        steps: &mut Steps<L>,
    ) -> Result<Option<String>, AllocError> {
        let (order, wanted) = text.split_once(": ").unwrap_or((text, ""));
        let came = self.outcome_of(alloc, order, steps)?;
        told(alloc, order, wanted, came.as_str())
    }

    // The outcome of an order; nothing for `stops`.
    fn outcome_of<L: Ledger>(
        &mut self,
        alloc: Global,
        text: &str,
        steps: &mut Steps<L>,
    ) -> Result<String, AllocError> {
        let how = match order_of(alloc, text) {
            Ok(Order::Stops(stops)) => {
                self.stops = stops;
                return Ok(String::new(alloc));
            }
            Ok(Order::Move(order)) => self.go(alloc, order, steps)?,
            Ok(Order::OutputFrom(place)) => output_from(alloc, &mut self.timeline, place, steps)?,
            Err(_) => return String::from_str(alloc, "no order"),
        };
        self.seen(alloc, how.as_str())
    }

    // Makes a move, and returns the hit, or how a step ended.
    fn go<L: Ledger>(
        &mut self,
        alloc: Global,
        order: Move,
        steps: &mut Steps<L>,
    ) -> Result<String, AllocError> {
        let timeline = &mut self.timeline;
        let stops = &self.stops;
        match order {
            Move::To(place) if place > timeline.most() => String::from_str(alloc, " no place"),
            Move::To(place) => {
                timeline.go_to(place, steps);
                Ok(String::new(alloc))
            }
            Move::StepOn(count) => step_text(alloc, steps_on(timeline, stops, count, steps)),
            Move::StepBack(count) => step_text(alloc, steps_back(timeline, stops, count, steps)),
            Move::RunOn => hit_text(alloc, timeline.run_forward(stops, steps)),
            Move::RunBack => hit_text(alloc, timeline.run_back(stops, steps)),
            Move::PartOn => hit_text(alloc, part_on(timeline, stops, steps)),
            Move::PartBack => hit_text(alloc, part_back(timeline, stops, steps)),
        }
    }

    // A text on the place of the walk. It includes the place reached, unless that is the greatest so far.
    fn seen(&mut self, alloc: Global, how: &str) -> Result<String, AllocError> {
        let place = self.timeline.place();
        let pc = self.timeline.state().pc;
        let reached = self.timeline.reached();
        self.furthest = self.furthest.max(place);
        if reached != self.furthest {
            return format!(in alloc; "{place} {pc:x}{how} reached {reached}");
        }
        format!(in alloc; "{place} {pc:x}{how}")
    }
}

// A text on the difference to what was expected, if any.
fn told(alloc: Global, what: &str, wanted: &str, came: &str) -> Result<Option<String>, AllocError> {
    if came == wanted {
        return Ok(None);
    }
    Ok(Some(format!(in alloc; "{what}: wanted {wanted}, came {came}")?))
}

fn output_from<L: Ledger>(
    alloc: Global,
    timeline: &mut Timeline,
    place: u32,
    steps: &mut Steps<L>,
) -> Result<String, AllocError> {
    if place > timeline.place() {
        return String::from_str(alloc, " no place");
    }
    let bytes = timeline.outputs_from(alloc, place, steps)?;
    let mut text = String::new(alloc);
    for (index, byte) in bytes.iter().enumerate() {
        if index == 0 {
            text.push_str(" ")?;
        }
        let digits = format!(in alloc; "{byte:02x}")?;
        text.push_str(digits.as_str())?;
    }
    Ok(text)
}

fn hit_text(alloc: Global, hit: Option<Hit>) -> Result<String, AllocError> {
    match hit {
        None => Ok(String::new(alloc)),
        Some(Hit::Break) => String::from_str(alloc, " break"),
        Some(Hit::Watch(which)) => format!(in alloc; " watch {which}"),
    }
}

fn step_text(alloc: Global, step: Step) -> Result<String, AllocError> {
    match step {
        Step::Went => String::from_str(alloc, " went"),
        Step::Watched(which) => format!(in alloc; " watched {which}"),
        Step::End => String::from_str(alloc, " end"),
    }
}
