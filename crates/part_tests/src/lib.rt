//! Tests of object tables, rows of spans and surfaces, one file per subject: values worked by hand, allocations that
//! fail, and every size and index that is cheap to try.
#![tactic(auto)]

#[cfg(test)]
mod band_sizes;
#[cfg(test)]
mod bands;
#[cfg(test)]
mod canvases;
#[cfg(test)]
mod comparing;
#[cfg(test)]
mod counted_writers;
#[cfg(test)]
mod faults;
#[cfg(test)]
mod image_sizes;
#[cfg(test)]
mod images;
#[cfg(test)]
mod large_bands;
#[cfg(test)]
mod row_crossings;
#[cfg(test)]
mod rows;
#[cfg(test)]
mod sent_lengths;
#[cfg(test)]
mod sizes;
#[cfg(test)]
mod table_indexes;
#[cfg(test)]
mod tables;
#[cfg(test)]
mod texts;
