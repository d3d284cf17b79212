//! A shelf that holds nothing.
ghost use Rattle.std.specs.Prelude.{◌≡◌, ◌++◌, ◌∷◌, [], drop};
ghost use Rattle.ccr_task.specs.Calls.{counts_of, make, read, remove, has, file_data};
ghost use Rattle.ccr_task.specs.Shelves.{folder_answer, file_answer, sight_answer, answers_left, sights_left, script_calls};

use crate::calls::Call;
use crate::counts::ShelfCounts;
use crate::fault::ShelfFault;
use crate::noted::Noted;
use crate::shelf::{MOST_FILE, Shelf};
use std::collections::VecDeque;

/// What a script answers to one call.
#[derive(Drop)]
pub enum ShelfAnswer {
    /// The folder is made or removed.
    Done,
    /// The file has these bytes.
    Read(Vec<u8>),
    /// The call isn't done.
    Fault(ShelfFault),
}

/// Answers that were handed in, given in their order, one a call.
///
/// `Failed` comes when they run out, and in place of an answer that the call can't give: to a folder's call `Read` and
/// `TooLong`, to a file's `Done` and a `Read` of more than 1,048,576 bytes. Such an answer is used up too. Whether a folder
/// is there, a list of its own answers, and that it isn't when that runs out; `Failed` comes in place of `TooLong`. No call
/// takes memory.
#[derive(Drop)]
pub struct ShelfScript {
    answers: VecDeque<ShelfAnswer>,
    sights: VecDeque<Result<bool, ShelfFault>>,
    noted: Noted,
}

impl ShelfScript {
    /// A shelf that gives these answers, and these on whether a folder is there.
    pub fn new(
        answers: VecDeque<ShelfAnswer>,
        sights: VecDeque<Result<bool, ShelfFault>>,
    ) -> ShelfScript
        ensures answers { answers_left result ≡ answers.items }
        ensures sights { sights_left result ≡ sights.items }
        ensures none { script_calls result ≡ [] }
    {
        ShelfScript {
            answers,
            sights,
            noted: Noted::new(),
        }
    }

    /// What was counted so far.
    pub fn counts(&self) -> ShelfCounts
        ensures { result ≡ counts_of (script_calls self.now) }
    {
        self.noted.counts()
    }

    /// The next answer, to a call for a folder.
    fn next_of_folder(&mut self) -> Result<(), ShelfFault>
        ensures answer { result ≡ folder_answer (answers_left self.old) }
        ensures left { answers_left self.new ≡ drop 1 (answers_left self.old) }
        ensures sights { sights_left self.new ≡ sights_left self.old }
        ensures calls { script_calls self.new ≡ script_calls self.old }
    {
        match self.answers.pop_front() {
            Some(ShelfAnswer::Done) => Ok(()),
            Some(ShelfAnswer::Fault(ShelfFault::NoMemory)) => Err(ShelfFault::NoMemory),
            _ => Err(ShelfFault::Failed),
        }
    }
}

impl Shelf for ShelfScript {
    ghost calls = { script_calls };

    fn make_folder(&mut self, path: &str) -> Result<(), ShelfFault>
        ensures answer { result ≡ folder_answer (answers_left self.old) }
        ensures left { answers_left self.new ≡ drop 1 (answers_left self.old) }
        ensures sights { sights_left self.new ≡ sights_left self.old }
        ensures called { script_calls self.new ≡ script_calls self.old ++ make path.now result ∷ [] }
    {
        let answer = self.next_of_folder();
        self.noted.note(&Call::Make(path, &answer));
        answer
    }

    fn read_file(&mut self, path: &str) -> Result<Vec<u8>, ShelfFault>
        ensures answer { result ≡ file_answer (answers_left self.old) }
        ensures left { answers_left self.new ≡ drop 1 (answers_left self.old) }
        ensures sights { sights_left self.new ≡ sights_left self.old }
        ensures called { script_calls self.new ≡ script_calls self.old ++ read path.now (file_data result) ∷ [] }
    {
        let answer = match self.answers.pop_front() {
            Some(ShelfAnswer::Read(bytes)) if bytes.len() <= MOST_FILE => Ok(bytes),
            Some(ShelfAnswer::Fault(fault)) => Err(fault),
            _ => Err(ShelfFault::Failed),
        };
        self.noted.note(&Call::Read(path, &answer));
        answer
    }

    fn remove_folder(&mut self, path: &str) -> Result<(), ShelfFault>
        ensures answer { result ≡ folder_answer (answers_left self.old) }
        ensures left { answers_left self.new ≡ drop 1 (answers_left self.old) }
        ensures sights { sights_left self.new ≡ sights_left self.old }
        ensures called { script_calls self.new ≡ script_calls self.old ++ remove path.now result ∷ [] }
    {
        let answer = self.next_of_folder();
        self.noted.note(&Call::Remove(path, &answer));
        answer
    }

    fn has_folder(&mut self, path: &str) -> Result<bool, ShelfFault>
        ensures answer { result ≡ sight_answer (sights_left self.old) }
        ensures left { sights_left self.new ≡ drop 1 (sights_left self.old) }
        ensures answers { answers_left self.new ≡ answers_left self.old }
        ensures called { script_calls self.new ≡ script_calls self.old ++ has path.now result ∷ [] }
    {
        let answer = match self.sights.pop_front() {
            Some(Err(ShelfFault::TooLong)) => Err(ShelfFault::Failed),
            Some(sight) => sight,
            None => Ok(false),
        };
        self.noted.note(&Call::Has(path, &answer));
        answer
    }
}
