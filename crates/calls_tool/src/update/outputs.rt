//! Where the image of `calls` goes.

use tool_text::Text;

/// Where the image of `calls` goes.
#[derive(Drop)]
pub enum CallsOutput {
    /// `-o`: to this file, which has another name than the file and the script.
    To(Text),
    /// `-i`: into the file itself.
    InPlace,
}
