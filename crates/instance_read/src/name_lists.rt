//! The names of a file as they come. They become sets once all of them are known.

ghost use Rattle.std.specs.Prelude.{◌≡◌, [], string_bytes, OnOk};
ghost use Rattle.instance_read.specs.Keepers.{names_kept};
ghost use Rattle.instance_read.specs.Keeping as spec;

use std::alloc::{AllocError, Global};

/// The names of a file, in its order.
#[derive(Drop)]
pub struct Names {
    pub resources: Vec<String>,
    pub seasons: Vec<String>,
    pub interventions: Vec<String>,
    pub exclusions: Vec<String>,
}

/// No names.
pub fn no_names(alloc: Global) -> Names
    ensures resources { result.resources.items ≡ [] }
    ensures seasons { result.seasons.items ≡ [] }
    ensures interventions { result.interventions.items ≡ [] }
    ensures exclusions { result.exclusions.items ≡ [] }
{
    Names {
        resources: Vec::new(alloc),
        seasons: Vec::new(alloc),
        interventions: Vec::new(alloc),
        exclusions: Vec::new(alloc),
    }
}

/// Keeps a further name. One that comes again counts where it came first.
pub fn add_name(names: &mut Vec<String>, name: String) -> Result<(), AllocError>
    ensures { OnOk result (names_kept names.new.items ≡ spec.with_name (string_bytes name) (names_kept names.old.items)) }
{
    names.push(name)?;
    Ok(())
}
