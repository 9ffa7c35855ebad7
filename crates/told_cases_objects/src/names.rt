// Names of objects.
use crate::objects::object_of;
use git_object::name_of;
use std::alloc::Global;
use told_rows::rows::Row;
use told_rows::texts::name_text;

/// The table of names.
#[derive(Clone, Copy)]
pub struct Names;

impl Row for Names {
    // The name of a content.
    fn answer(&self, alloc: Global, asked: &str) -> Option<String> {
        let (kind, content) = object_of(alloc, asked)?;
        name_text(alloc, &name_of(kind, &content))
    }
}
