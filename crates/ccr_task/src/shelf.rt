//! What holds folders and files.
ghost use Rattle.std.specs.Prelude.{◌≡◌, ◌≢◌, ◌≤◌, ◌++◌, ◌∷◌, [], List, IfOk, vec_len};
ghost use Rattle.ccr_task.specs.Calls.{CallData, make, read, remove, has, file_data};

use crate::fault::ShelfFault;

/// The greatest number of bytes of a file that is read.
pub(crate) const MOST_FILE: usize = 1_048_576;

/// What holds folders and files, each named by its path.
///
/// Contracts see its calls in order, each with its path and what it answered.
pub trait Shelf {
    ghost calls: { Self → List CallData };

    /// Makes a folder, and those above it that aren't there. One that is there is left as it is.
    ///
    /// `Failed` where it can't be made, as where a file stands in its place; `NoMemory`; never `TooLong`.
    fn make_folder(&mut self, path: &str) -> Result<(), ShelfFault>
        ensures called { calls self.new ≡ calls self.old ++ make path.now result ∷ [] }
        ensures kind { result ≢ Err ShelfFault.TooLong };

    /// The bytes of a file, at most 1,048,576.
    ///
    /// `Failed` where it can't be read, as where it isn't there, and where it isn't at its end after 1,000,000,000
    /// reads; `TooLong` where it has more bytes; `NoMemory`.
    fn read_file(&mut self, path: &str) -> Result<Vec<u8>, ShelfFault>
        ensures called { calls self.new ≡ calls self.old ++ read path.now (file_data result) ∷ [] }
        ensures short { IfOk result (λ bytes. vec_len bytes ≤ MOST_FILE) };

    /// Removes a folder with all that is in it. One that isn't there is no fault.
    ///
    /// `Failed` where it can't be removed, as where a file stands in its place; `NoMemory`; never `TooLong`.
    fn remove_folder(&mut self, path: &str) -> Result<(), ShelfFault>
        ensures called { calls self.new ≡ calls self.old ++ remove path.now result ∷ [] }
        ensures kind { result ≢ Err ShelfFault.TooLong };

    /// Whether a folder is there. A file is none.
    ///
    /// `Failed` where that can't be told, as where a file stands above it; `NoMemory`; never `TooLong`.
    fn has_folder(&mut self, path: &str) -> Result<bool, ShelfFault>
        ensures called { calls self.new ≡ calls self.old ++ has path.now result ∷ [] }
        ensures kind { result ≢ Err ShelfFault.TooLong };
}
