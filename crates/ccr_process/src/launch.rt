//! What is started.
ghost use Rattle.std.specs.Prelude.{◌≡◌, IfOk};
ghost use Rattle.ccr_process.specs.Launches.{launch_data, texts_of, variables_of};

use std::alloc::AllocError;

/// A program to start, with all that it is given.
#[derive(Drop)]
pub struct Launch {
    /// The program: a path, from the folder where it doesn't begin with `/`, or a name without `/`, which is looked up
    /// along the `PATH` of the environment that the program gets.
    pub program: String,
    /// Its arguments, after its own name.
    pub args: Vec<String>,
    /// The folder that it runs in.
    pub folder: String,
    /// The variables that are laid over the server's environment, by name; the last value of a repeated name counts.
    pub env: Vec<(String, String)>,
    /// What it is given on its standard input.
    pub input: Vec<u8>,
    /// Whether its standard output is kept.
    pub keep: bool,
}

fn copy_texts(texts: &Vec<String>) -> Result<Vec<String>, AllocError>
    ensures { IfOk result (λ v. texts_of v.items ≡ texts_of texts.now.items) }
{
    let copied = texts.clone()?;
    Ok(copied)
}

fn copy_variables(env: &Vec<(String, String)>) -> Result<Vec<(String, String)>, AllocError>
    ensures { IfOk result (λ v. variables_of v.items ≡ variables_of env.now.items) }
{
    let copied = env.clone()?;
    Ok(copied)
}

impl Launch {
    /// A copy of the launch.
    pub fn copy(&self) -> Result<Launch, AllocError>
        ensures { IfOk result (λ l. launch_data l ≡ launch_data self.now) }
    {
        Ok(Launch {
            program: self.program.clone()?,
            args: copy_texts(&self.args)?,
            folder: self.folder.clone()?,
            env: copy_variables(&self.env)?,
            input: self.input.clone()?,
            keep: self.keep,
        })
    }
}
