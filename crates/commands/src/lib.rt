//! The commands of `metaplay`: reading the inputs of a command line, and running its command.
//!
//! # What is promised
//!
//! - The right words for a command, and words in any order that `clap` accepts and that give what is right, have the status
//!   of wrong usage exactly if OUT is FILE. That is an answer of the system, for a certificate of a named file alone. The
//!   end of the run has it (`run_words`).
//! - Wrong usage writes nothing to standard output. Only help does, and it writes nothing to standard error (`run_words`,
//!   `run`, `usage`). A run ends with help only if that is among what `clap` may answer its words with (`run_words`).
//! - An input is read in full, or reading it fails (`read_input`).
//! - One definition for all commands says what a command writes to its output and to standard error, by how it ends
//!   (`show_command`, `prepare_command`, `check_command`, `play_command`, `over_command`, `list_command`, by `Writes`
//!   and `Prints`).
//! - A command that is done has written one text and nothing else. That is the P6 text of the image that the file's
//!   records define, over white (`show`, `play`) or over the given image (`over`); the prepared certificate
//!   (`prepare`); the report of an accepted one (`check`); or the listing of records that end with an end record
//!   (`list`).
//! - Wherever a run of the file stops, on a surface of any size, the listing names that fault on the line of its
//!   record. The same holds for the fault by which a certificate is rejected, unless that fault is in the certificate's
//!   own entry (`list_command`).
//! - A command rejects its input only with the right fault: the file's first fault (`show`, `prepare`), or the fault
//!   that the check reports. After a successful check, `play` can reject only a surface above the certificate's bound,
//!   and `over` such a surface or an invalid image. Then nothing was written, except the report of `check`, and the
//!   lines of `list` for records that break.
//! - `--version` writes the text that the program was given for it, and nothing else (`run_words`, by `VersionWrites`).
//! - With `--fit`, the surface of `show` and of `play` is the largest one within the given width and height that has the
//!   proportion of the file's frame (`run_words`, by `asked_width` and `asked_height`).
//! - `info` and `certify` write one line about each file, in order, and end as the worst of the files does
//!   (`batch_command`). A line of `info` has what is known of the file, or says why the file wasn't read.
//! - A line of `certify` has the report of `check` for the bytes of the file and of the certificate, which is accepted for
//!   it under the rules and for the bound that were asked for, and their SHA-256; or the first fault of the file; or the
//!   reason why there is neither (`batch_command`, by `IsCertifyLine`). A certificate that wasn't there is the one that
//!   `prepare` makes, stored as `prepare` does (`prepared_line`).
//! - A name that isn't UTF-8 has such a line too, and no file is opened by it (`batch_command`, by `IsMark`).
//! - If an allocation fails, nothing was written, except whole lines of `info` and `certify`. For `show`, `prepare` and
//!   `list` the file opens in that case, and for `play` and `over` the certificate can be read too.
//! - If an output fails, a prefix of such a text was written. A command ends by `CannotWrite` only if its output
//!   failed: the output counts its faults, and that count rose.
//! - A command that is done has flushed its output after the last byte. So have `check` after the report of a
//!   rejection, `list` after records that break, and `info` and `certify` unless the output failed or an allocation did.
//!   A prepared certificate goes to its own file, and standard output is unchanged (`run_words`, `run`).
//! - The program's `prepare` is done only after the whole certificate was appended to the file that was opened for it,
//!   and that file was flushed. A new file was then written to the disk, and then got its name (`NamedOutput::store`, and
//!   `prepare_to_file`, by `Stores`).
//! - The number of rows in a band, if the program chooses it, is at most 8, or has at most 2^20 pixels (`band_rows`).
//! - The whole program ends in the same ways, for some bytes of its inputs and for the sizes and files that the words
//!   give (`run_words`, `run`). No status is above 4 (`CommandEnd::status`).
//! - Standard error gets nothing if the work is done. Otherwise it gets one line with the reason, or a prefix of it if
//!   the writer failed, and the result says which (`report`, `run`). The result has an error of that writer only if
//!   there was a line to write and the writer failed: no line of the program is too long (`report_refusal`).
#![tactic(auto)]

mod batch;
mod batch_line;
mod certificate_path;
mod certified;
mod certify;
mod certify_report;
mod certifying;
mod check;
mod check_report;
mod command_end;
mod failure;
mod file_line;
mod fitting;
mod image_output;
mod input;
mod inputs;
mod list;
mod output;
mod output_path;
mod over;
mod plain_file;
mod play;
mod playing;
mod prepare;
mod preparing;
mod program;
mod reporting;
mod same_file;
mod show;
mod shown;
mod storing;
mod version;
mod words;

pub use batch::batch_command;
pub use check::check_command;
pub use command_end::{CommandEnd, Completion};
pub use input::{InputFault, read_input};
pub use inputs::read_file;
pub use list::{list_command, list_command_by};
pub use over::over_command;
pub use play::play_command;
pub use prepare::{prepare_command, prepare_command_by};
pub use program::{Call, no_input, run, run_words, usage};
pub use reporting::{report, report_refusal};
pub use show::{show_command, show_command_by};
