//! What the system is told to start.
ghost use Rattle.std.specs.Prelude.{◌≡◌, ◌&&◌, IfOk, OnOk, string_bytes};
ghost use Rattle.std.specs.List.{list_all};
ghost use Rattle.ccr_process.specs.Launches.{launch_data, texts_of, variables_of, has_no_nul, is_variable_name, can_start};
ghost use Rattle.ccr_process.specs.Commands.{IsCommandOf, AddsArgs, AddsVariables, SetsVariable};

use crate::launch::Launch;
use std::alloc::{AllocError, Global};
use std::process::{Command, Stdio};

fn is_nul_free(text: &str) -> bool
    ensures { result ≡ has_no_nul text.now }
{
    !text.as_bytes().contains(&0)
}

fn is_variable_name(text: &str) -> bool
    ensures { result ≡ is_variable_name text.now }
{
    is_nul_free(text) && !text.as_bytes().contains(&b'=') && !text.is_empty()
}

fn are_nul_free(texts: &[String]) -> bool
    ensures { result ≡ list_all (λ text. has_no_nul (string_bytes text)) texts.now }
{
    texts.iter().all(|text| is_nul_free(text.as_str()))
}

fn are_variables(env: &[(String, String)]) -> bool
    ensures { result ≡ list_all (λ e. is_variable_name (string_bytes e.0) && has_no_nul (string_bytes e.1)) env.now }
{
    env.iter().all(|e| is_variable_name(e.0.as_str()) && is_nul_free(e.1.as_str()))
}

/// Whether the system can be told the launch: it takes no byte 0, and would read a name with `=` as another.
pub(crate) fn is_startable(launch: &Launch) -> bool
    ensures { result ≡ can_start launch.now }
{
    is_nul_free(launch.program.as_str())
        && is_nul_free(launch.folder.as_str())
        && are_nul_free(launch.args.as_slice())
        && are_variables(launch.env.as_slice())
}

fn add_args(command: &mut Command, args: &[String]) -> Result<(), AllocError>
    ensures { OnOk result (AddsArgs command.old (texts_of args.now) command.new) }
{
    for arg in args {
        command.arg(arg.as_str())?;
    }
    Ok(())
}

fn set_variable(command: &mut Command, name: &str, value: &str) -> Result<(), AllocError>
    ensures { OnOk result (SetsVariable command.old name.now value.now command.new) }
{
    command.env(name, value)?;
    Ok(())
}

fn add_variables(command: &mut Command, env: &[(String, String)]) -> Result<(), AllocError>
    ensures { OnOk result (AddsVariables command.old (variables_of env.now) command.new) }
{
    for (name, value) in env {
        set_variable(command, name.as_str(), value.as_str())?;
    }
    Ok(())
}

/// The command of a launch: its program, arguments, folder and variables, with pipes for input and output.
pub(crate) fn command_of(alloc: Global, launch: &Launch) -> Result<Command, AllocError>
    ensures { IfOk result (IsCommandOf (launch_data launch.now)) }
{
    let mut command = Command::new(alloc, launch.program.as_str())?;
    command.current_dir(launch.folder.as_str())?;
    command.stdin(Stdio::piped());
    command.stdout(Stdio::piped());
    add_args(&mut command, launch.args.as_slice())?;
    add_variables(&mut command, launch.env.as_slice())?;
    Ok(command)
}
