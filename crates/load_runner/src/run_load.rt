// Loads: objects are linked both ways, and their program and both images are run.

ghost use Rattle.std.specs.Prelude.{◌≡◌, ℕ, IfErr, IfOk, None};
ghost use Rattle.block_cut.specs.Faults.{first_fault};
ghost use Rattle.interrupt_plan.specs.Made.{made_plan};
ghost use Rattle.interrupt_plan.specs.Plan.{IsPlan};
ghost use Rattle.load_runner.specs.Cause.{LoadCause};
ghost use Rattle.load_runner.specs.Load.{AreLinks, IsLoad};
ghost use Rattle.load_runner.specs.Runs.{standard_inputs};
ghost use Rattle.load_runner.specs.declared.run_load.TheConstants.{LOAD_CUTS};
ghost use Rattle.psabi_sym.specs.Objects.{contents_of};
ghost use Rattle.zc_link.specs.Links.{IsPlainLink};

use crate::ended::Ended;
use crate::faultless::{cut_files, plain_link, zc_link};
use crate::image::{run_both, run_uncut};
use crate::load::Load;
use crate::load_end::LoadEnd;
use crate::trace::trace;
use block_cut::cut::Cut;
use interrupt_plan::make_plan::make_plan;
use interrupt_plan::plan::Plan;
use std::alloc::Global;
use zc_link::linked::Linked;

/// The limit of steps or commits of each run.
pub const LOAD_STEPS: u64 = 100_000_000;

/// The number of interrupts in the last run.
pub const LOAD_CUTS: u32 = 200;

/// Links these objects by `plain` and by `zc`, traces their program, and runs the plain image, the Zc image, and the Zc
/// image under the plan of `LOAD_CUTS` interrupts that is generated from the number. No run has input.
///
/// The result is how the runs exit, or why the first one that doesn't exit doesn't. In the symbolic machine a program
/// may get stuck, but once it has exited there, its images are never stopped.
pub fn run_load(alloc: Global, number: u64, objects: &[Vec<u8>]) -> Result<Load, LoadEnd>
    requires { first_fault (standard_inputs (contents_of objects.now)) ≡ None }
    ensures ok { IfOk result (IsLoad (standard_inputs (contents_of objects.now)) number) }
    ensures err { IfErr result (LoadCause (standard_inputs (contents_of objects.now)) number) }
{
    let plain = plain_link(alloc, objects)?;
    load_beside(alloc, number, objects, &plain)
}

// Both links of objects.
#[derive(Drop)]
struct Links<'a> {
    plain: &'a Linked,
    zc: &'a Linked,
}

// The load of objects whose plain link is known.
fn load_beside(
    alloc: Global,
    number: u64,
    objects: &[Vec<u8>],
    plain: &Linked,
) -> Result<Load, LoadEnd>
    requires faultless { first_fault (standard_inputs (contents_of objects.now)) ≡ None }
    requires plain { IsPlainLink (standard_inputs (contents_of objects.now)) plain.now }
    ensures ok { IfOk result (IsLoad (standard_inputs (contents_of objects.now)) number) }
    ensures err { IfErr result (LoadCause (standard_inputs (contents_of objects.now)) number) }
{
    let zc = zc_link(alloc, objects)?;
    load_of(alloc, number, objects, &Links { plain, zc: &zc })
}

// The load of objects whose links are known.
fn load_of(alloc: Global, number: u64, objects: &[Vec<u8>], links: &Links) -> Result<Load, LoadEnd>
    requires faultless { first_fault (standard_inputs (contents_of objects.now)) ≡ None }
    requires links { AreLinks (standard_inputs (contents_of objects.now)) links.now.plain.now links.now.zc.now }
    ensures ok { IfOk result (IsLoad (standard_inputs (contents_of objects.now)) number) }
    ensures err { IfErr result (LoadCause (standard_inputs (contents_of objects.now)) number) }
{
    let cut = cut_files(alloc, objects)?;
    let cuts = make_plan(alloc, number, LOAD_CUTS)?;
    run_all(alloc, &cut, &cuts, links)
}

// Traces the program of the objects and runs the images of their links, the last under this plan.
fn run_all(alloc: Global, cut: &Cut, cuts: &Plan, links: &Links) -> Result<Load, LoadEnd>
    requires links { AreLinks cut.now links.now.plain.now links.now.zc.now }
    requires plan { IsPlan cuts.now }
    ensures ok { IfOk result (λ load. (number : ℕ) → cuts.now ≡ made_plan number LOAD_CUTS
        → IsLoad cut.now number load) }
    ensures err { IfErr result (λ end. (number : ℕ) → cuts.now ≡ made_plan number LOAD_CUTS
        → LoadCause cut.now number end) }
{
    let traced = trace(alloc, cut)?;
    let plain = run_uncut(alloc, links.plain)?;
    let zc = run_both(alloc, links.zc, cuts)?;
    Ok(joined(links, traced, plain, zc))
}

// The load of these links and ends.
fn joined(links: &Links, traced: Ended, plain: Ended, zc: (Ended, Ended)) -> Load
    ensures { result ≡ record {
      plain_text = links.now.plain.now.plain.text;
      zc_text = links.now.zc.now.zc.text;
      net = links.now.zc.now.certificate.net;
      steps = traced.count;
      commits = zc.0.count;
      trace = traced.exit;
      plain = plain.exit;
      zc = zc.0.exit;
      cuts = zc.1.exit;
    } }
{
    let (uncut, cut) = zc;
    let plain_linked = links.plain;
    let zc_linked = links.zc;
    let certificate = &zc_linked.certificate;
    Load {
        plain_text: plain_linked.plain.text,
        zc_text: zc_linked.zc.text,
        net: certificate.net,
        steps: traced.count,
        commits: uncut.count,
        trace: traced.exit,
        plain: plain.exit,
        zc: uncut.exit,
        cuts: cut.exit,
    }
}
