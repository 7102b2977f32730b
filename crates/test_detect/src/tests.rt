//! Detection on the worked rows; the workers at work.

mod answers;
mod cuttings;
mod faulty_rows;
mod known;
mod part_rows;
mod record_by_record;
mod reported_rows;
mod rows;
mod samples;
mod sharded_rows;
mod thousand_races;
mod together;
