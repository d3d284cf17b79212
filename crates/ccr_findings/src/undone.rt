//! What to do in the place of what isn't done here.
ghost use Rattle.std.specs.Prelude.{◌≡◌};
ghost use Rattle.ccr_findings.specs.Undone as spec;

/// The last key of a path.
fn last_key(path: &str) -> &[u8]
    ensures { result.now ≡ spec.last_key path.now path.now }
{
    let path = path.as_bytes();
    let mut key = path;
    for (i, byte) in path.iter().enumerate() {
        if *byte == b'.' {
            key = &path[i + 1..];
        }
    }
    key
}

/// What to do in the place of a key that isn't supported.
#[tactic(auto, unfolding(crate::specs::Undone::undone_words))]
fn words_of(key: &[u8]) -> &'static str
    ensures { result.now ≡ spec.undone_words key.now }
{
    if key == b"across".as_slice() {
        ": write a step for each value"
    } else if key == b"load_var".as_slice() {
        ": have a task read the file"
    } else if key == b"set_pipeline".as_slice() {
        ": set the pipeline from outside of a build"
    } else if key == b"aggregate".as_slice() {
        ": write in_parallel"
    } else if key == b"input_mapping".as_slice() {
        "; leave it out, and get the resource under the input's name: {\"get\": \"input\", \"resource\": \"repo\"}"
    } else if key == b"output_mapping".as_slice() {
        "; leave it out, and call the output as the steps behind do"
    } else if key == b"path".as_slice() {
        "; leave it out: an input or output lies under its name"
    } else {
        ""
    }
}

/// What to do in the place of what isn't supported at a path.
pub(crate) fn undone_words(path: &str) -> &'static str
    ensures { result.now ≡ spec.undone_words (spec.last_key path.now path.now) }
{
    words_of(last_key(path))
}
