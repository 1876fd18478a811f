//! The standard start.
ghost use Rattle.std.specs.Prelude.{◌≡◌, IfOk, IfErr};
ghost use Rattle.mls_start.specs.Rows.{opening};
ghost use Rattle.mls_start_file.specs.Standard.{standard_names, standard_rows};

use crate::loaded::Loaded;
use crate::standard_rows::standard_builder;
use mls_labels::Scheme;
use mls_lines::Names;
use mls_start::Start;
use mls_start_text::LoadFault;
use std::alloc::Allocator;

/// The names of the standard start.
///
/// # Errors
/// `Memory` where an allocation failed, and nothing else.
fn standard_names<A: Allocator + Copy>(alloc: A) -> Result<Names<A>, LoadFault>
    ensures names { IfOk result (λ names. names ≡ standard_names) }
    ensures err { IfErr result (λ fault. fault ≡ LoadFault.Memory) }
{
    let security = Scheme::new(alloc, &["U", "C", "S", "T"], &["A", "B"])?;
    let integrity = Scheme::new(alloc, &["lo", "hi"], &[])?;
    let subjects = ["ann", "bob", "sec", "aud"];
    let objects = ["root", "plans", "memo", "tool"];
    // These names have no fault of their own, so that memory is all that can fail.
    let Ok(names) = Names::new(alloc, &subjects, &objects, security, integrity) else {
        return Err(LoadFault::Memory);
    };
    Ok(names)
}

/// The standard start without its names.
///
/// # Errors
/// `Memory` where an allocation failed, and nothing else: with its rows nothing is wrong.
#[tactic(auto, using(crate::proofs::StandardRows::nothing_wrong))]
fn unnamed_start<A: Allocator + Copy>(alloc: A) -> Result<Start<A>, LoadFault>
    ensures start { IfOk result (λ start. start ≡ opening standard_rows) }
    ensures err { IfErr result (λ fault. fault ≡ LoadFault.Memory) }
{
    match standard_builder(alloc)?.build() {
        Ok(start) => Ok(start),
        Err(refused) => Err(LoadFault::Start(refused.fault)),
    }
}

/// The standard start: ann, bob, sec and aud, and root, plans, memo and tool.
///
/// # Errors
/// `Memory` where an allocation failed, and nothing else.
#[tactic(auto, using(crate::proofs::StandardRows::names_tied))]
pub fn standard_start<A: Allocator + Copy>(alloc: A) -> Result<Loaded<A>, LoadFault>
    ensures names { IfOk result (λ loaded. loaded.names ≡ standard_names) }
    ensures start { IfOk result (λ loaded. loaded.start ≡ opening standard_rows) }
    ensures err { IfErr result (λ fault. fault ≡ LoadFault.Memory) }
{
    let start = unnamed_start(alloc)?;
    let names = standard_names(alloc)?;
    Ok(Loaded::new(names, start))
}
