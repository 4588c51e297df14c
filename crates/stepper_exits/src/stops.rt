//! Where a step stops.

ghost use Rattle.std.specs.Prelude.{◌≡◌, IfOk};
ghost use Rattle.c_machine.specs.Machine as machine;
ghost use Rattle.stepper_work.specs.Views.{control_of};

use crate::marks::{site_in, statement_named};
use sqlite_items::Items;
use std::alloc::{AllocError, Global};
use stepper_held::stack::Stack;
use stepper_work::work::Work;

/// The call sites in progress, outermost first.
pub fn sites_of(alloc: Global, control: &Stack<Work<'_>>) -> Result<Items<u32>, AllocError>
    ensures { IfOk result (λ sites. sites ≡ machine.sites_of (control_of control.now)) }
{
    let mut sites = Items::new(alloc);
    for work in control.from_bottom() {
        if let Some(site) = site_in(*work) {
            sites.push(site)?;
        }
    }
    Ok(sites)
}

/// The statement in which the work goes on.
pub fn statement_in(control: &Stack<Work<'_>>) -> u32
    ensures { result ≡ machine.statement_in (control_of control.now) }
{
    let mut found = 0;
    for work in control.from_bottom() {
        if let Some(id) = statement_named(*work) {
            found = id;
        }
    }
    found
}
