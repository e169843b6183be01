ghost use Rattle.std.specs.Prelude.{◌≡◌, List, option_to_list};
ghost use Rattle.std.specs.Option.{option_copied};
ghost use Rattle.data_layout.specs.Rows.{or_none};
ghost use Rattle.data_names.specs.Parts.{files, crt_status, descriptions, working_storage, screen_entries};

use cob_base::{CrtStatus, DataEntry, FileDescription, FileEntry, Front, Items, ScreenEntry};

/// A list that may not have been written, as a slice.
fn items_or_none<T>(items: &Option<Items<T>>) -> &[T]
    ensures { result.now ≡ or_none items.now }
{
    match items {
        Some(items) => items.as_slice(),
        None => &[],
    }
}

/// The file control entries.
pub fn files(front: &Front) -> &[FileEntry]
    ensures { result.now ≡ files front.now }
{
    match &front.environment {
        Some(environment) => match &environment.input_output {
            Some(section) => items_or_none(&section.file_control),
            None => &[],
        },
        None => &[],
    }
}

/// The clause CRT STATUS.
pub fn crt_status(front: &Front) -> Option<&CrtStatus>
    ensures { option_to_list (option_copied result) ≡ crt_status front.now }
{
    match &front.environment {
        Some(environment) => match &environment.configuration {
            Some(configuration) => match &configuration.special_names {
                Some(names) => names.crt_status.as_ref(),
                None => None,
            },
            None => None,
        },
        None => None,
    }
}

/// The descriptions of files.
pub fn descriptions(front: &Front) -> &[FileDescription]
    ensures { result.now ≡ descriptions front.now }
{
    match &front.data {
        Some(data) => items_or_none(&data.files),
        None => &[],
    }
}

/// The entries of working storage.
pub fn working_storage(front: &Front) -> &[DataEntry]
    ensures { result.now ≡ working_storage front.now }
{
    match &front.data {
        Some(data) => items_or_none(&data.working_storage),
        None => &[],
    }
}

/// The entries of screens.
pub fn screen_entries(front: &Front) -> &[ScreenEntry]
    ensures { result.now ≡ screen_entries front.now }
{
    match &front.data {
        Some(data) => items_or_none(&data.screens),
        None => &[],
    }
}
