//! Tasks, and what says how they run.

/// The program of a task.
#[derive(Drop)]
pub struct Run {
    /// The program, taken from the build folder unless it begins with `/` or has no `/`.
    pub path: String,
    /// The program's arguments.
    pub args: Vec<String>,
    /// The folder below the build folder that the program runs in.
    pub dir: Option<String>,
}

/// An artifact that a task takes.
#[derive(Drop)]
pub struct TaskInput {
    /// The artifact's name.
    pub name: String,
    /// Whether the task runs without it.
    pub optional: bool,
}

/// A variable of a task's environment.
#[derive(Drop)]
pub struct Variable {
    /// The variable's name.
    pub name: String,
    /// Its value: a text as it stands, nothing for `null`, else compact JSON.
    pub value: String,
}

/// How a task runs (Concourse: task config): that of a task file, or inline.
#[derive(Drop)]
pub struct TaskConfig {
    /// The program.
    pub run: Run,
    /// The artifacts that it takes, in the order of the text, no two of one name.
    pub inputs: Vec<TaskInput>,
    /// The names of the artifacts that it leaves, in the order of the text, each once.
    pub outputs: Vec<String>,
    /// Its environment, names ascending by bytes.
    pub params: Vec<Variable>,
}

/// What says how a task runs.
#[derive(Drop)]
pub enum TaskSource {
    /// The step itself.
    Config(TaskConfig),
    /// A file of the build folder.
    File(String),
}

/// A task step (Concourse: task step).
#[derive(Drop)]
pub struct Task {
    /// Any text.
    pub name: String,
    /// What says how it runs.
    pub source: TaskSource,
    /// What replaces the config's variables of equal names, names ascending by bytes.
    pub params: Vec<Variable>,
    /// What a launcher is told of how long it may take, as the text says it.
    pub timeout: Option<String>,
}
