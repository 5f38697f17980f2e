//! Which texts are names.
use case_lines::{Answer, CaseFault, Row, debug_text};
use std::alloc::Global;
use td_base::{is_file_name, is_identifier, is_label, is_path_word};

/// `identifier TEXT`, `file-name TEXT`, `label TEXT` and `path-word TEXT`: whether the text is one.
pub fn judge(alloc: Global, row: &Row) -> Answer {
    let text = row.word(0)?;
    match row.kind() {
        "identifier" => debug_text(alloc, &is_identifier(text)),
        "file-name" => debug_text(alloc, &is_file_name(text)),
        "label" => debug_text(alloc, &is_label(text)),
        "path-word" => debug_text(alloc, &is_path_word(text)),
        _ => Err(CaseFault::Strange),
    }
}
