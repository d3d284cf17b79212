//! What a build gains as it goes on.
ghost use Rattle.std.specs.Prelude.{◌≡◌, map, string_bytes, take, IfOk, OnOk};
ghost use Rattle.std.specs.List.{list_all, list_any};
ghost use Rattle.ccr_pipeline.specs.Tree.{input_data};
ghost use Rattle.ccr_steps.specs.Gains.{gains_data, moved_data, Grew, no_gains, is_same, has_moved};
ghost use Rattle.ccr_steps.specs.Gains.{register, register_all, move, has_input, has_inputs};

use crate::moved::Moved;
use ccr_history::Version;
use ccr_pipeline::{Names, TaskInput};
use std::alloc::{AllocError, Global};

/// The names of the registered artifacts, and the moved versions, each once.
#[derive(Drop)]
pub(crate) struct Gains {
    pub(crate) names: Names,
    pub(crate) moved: Vec<Moved>,
}

fn moved_of(alloc: Global, resource: &str, version: &Version) -> Result<Moved, AllocError>
    ensures { IfOk result (λ m. moved_data m ≡ record { resource = resource.now; version = version.now }) }
{
    Ok(Moved {
        resource: String::from_str(alloc, resource)?,
        key: version.key(alloc)?,
        version: version.copy()?,
    })
}

fn is_same(moved: &Moved, resource: &str, key: &str) -> bool
    ensures { result ≡ is_same (moved_data moved.now) resource.now key.now }
{
    moved.resource.as_str() == resource && moved.key.as_str() == key
}

fn any_same(moved: &[Moved], resource: &str, key: &str) -> bool
    ensures { result ≡ list_any (λ m. is_same (moved_data m) resource.now key.now) moved.now }
{
    moved.iter().any(|m| is_same(m, resource, key))
}

/// Whether the version of a resource with this key is among them.
fn has_moved(moved: &[Moved], resource: &str, key: &str) -> bool
    ensures { result ≡ has_moved (map moved_data moved.now) resource.now key.now }
{
    any_same(moved, resource, key)
}

impl Gains {
    /// No artifacts, and no moved versions.
    pub(crate) fn new(alloc: Global) -> Gains
        ensures { gains_data result ≡ no_gains }
    {
        Gains {
            names: Names::new(alloc),
            moved: Vec::new(alloc),
        }
    }

    fn has_input(&self, input: &TaskInput) -> bool
        ensures { result ≡ has_input (gains_data self.now) (input_data input.now) }
    {
        input.optional || self.names.contains(input.name.as_str())
    }

    fn has_each(&self, inputs: &[TaskInput]) -> bool
        ensures { result ≡ list_all (λ i. has_input (gains_data self.now) (input_data i)) inputs.now }
    {
        inputs.iter().all(|input| self.has_input(input))
    }

    /// Whether each input that isn't optional is registered.
    pub(crate) fn has_inputs(&self, inputs: &[TaskInput]) -> bool
        ensures { result ≡ has_inputs (map input_data inputs.now) (gains_data self.now) }
    {
        self.has_each(inputs)
    }

    /// Registers an artifact.
    pub(crate) fn register(&mut self, alloc: Global, name: &str) -> Result<(), AllocError>
        ensures ok { OnOk result (gains_data self.new ≡ register name.now (gains_data self.old)) }
        ensures grew { Grew (gains_data self.old) (gains_data self.new) }
    {
        self.names.add(alloc, name)?;
        Ok(())
    }

    /// Registers the artifacts of a list.
    pub(crate) fn register_all(&mut self, alloc: Global, names: &[String]) -> Result<(), AllocError>
        ensures ok { OnOk result (gains_data self.new
            ≡ register_all (map string_bytes names.now) (gains_data self.old)) }
        ensures grew { Grew (gains_data self.old) (gains_data self.new) }
    {
        for name in names {
            self.register(alloc, name.as_str())?;
        }
        Ok(())
    }

    /// Adds a moved version, unless it is there.
    pub(crate) fn add_moved(
        &mut self,
        alloc: Global,
        resource: &str,
        version: &Version,
    ) -> Result<(), AllocError>
        ensures ok { OnOk result (gains_data self.new
            ≡ move resource.now version.now (gains_data self.old)) }
        ensures grew { Grew (gains_data self.old) (gains_data self.new) }
    {
        let key = version.key(alloc)?;
        if has_moved(&self.moved, resource, key.as_str()) {
            return Ok(());
        }
        let moved = moved_of(alloc, resource, version)?;
        self.moved.push(moved)?;
        Ok(())
    }

    /// Keeps so many of the names and of the moved versions, those that came first.
    pub(crate) fn cut(&mut self, names: usize, moved: usize)
        ensures names { (gains_data self.new).names ≡ take names (gains_data self.old).names }
        ensures moved { (gains_data self.new).moved ≡ take moved (gains_data self.old).moved }
    {
        self.names.truncate(names);
        self.moved.truncate(moved);
    }
}
