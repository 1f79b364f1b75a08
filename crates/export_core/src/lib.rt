//! Exports: what a user is told of a checkpoint, record by record.
//!
//! An export goes over the tables of a checkpoint's [`Image`](capture_core::Image) in the order of
//! their creation. A table is listed, with the columns of which the user held SELECT at the
//! checkpoint's point, by the owners and grants captured there, and holds it at the request, by
//! those in force then. Its rows are cut to these columns. Where there is none, the table is
//! withheld, and one record says so and when SELECT was missing: at the point, where the user held
//! it of no column, or now, where he holds it of none of those. The last record has the number of
//! the checkpoint. An export of one table alone tells that table and the end.
//!
//! ```text
//! table,pay,name,wage
//! row,"Bo, jr",-5
//! table,staff,name
//! row,"Bo, jr"
//! withheld,tax,point
//! withheld,log,now
//! end 1
//! ```
//!
//! A [`Ticket`] stands for an export on its way: the numbers of its header, the records given so
//! far, and those to come. The one contract: [`Ticket::issue`] fixes the records to come, with each
//! table judged once, and from then on each call moves records from those to come to those given,
//! the next ones in order, and hands out or writes exactly these. What is granted or revoked later
//! changes nothing in an export that was issued. `specs/Export.antt` says what the records are, and
//! `specs/Ticket.antt` what the calls do.
//!
//! ```text
//! let mut ticket = Ticket::issue(alloc, &image, ann, &rights, None, Moment(6))?;
//! ticket.next_record()?;                     // Some: table,t,v
//! ticket.write_to(&mut writer, &NoGate)?;    // row,1 and what follows, up to the end
//! ticket.next_record()?;                     // None
//! ```
//!
//! `write_to` writes all records that are to come. Who would wait too long for that calls
//! `write_some` again and again, which writes a few and says whether more are to come.
//!
//! A [`Gate`](base_core::Gate) is called before each record that is written, so that a test can hold
//! an export up there.
//!
//! # Records
//!
//! A record is a line of at least two fields with commas between them. A field is in quotes exactly
//! where it has a comma or a quote, and a quote inside is doubled; the line ends with a line feed.
//! It is written by `csv`, whose text of fields without control characters is this one; names,
//! texts and numbers have none. Rows that follow each other are written by one writer of `csv`,
//! since its buffer costs more than a row's text. The last record of an export alone is of another
//! form: two words.
//!
//! # Cost
//!
//! A ticket keeps the image's `Arc`, the marks of its tables' columns, and where it is; nothing of
//! the image is copied. Where all columns of a table are marked, they are only counted. To issue a
//! ticket asks once a table whether the user owns it; where he doesn't, it looks up a right for
//! each column, and takes memory for a byte a column. The first record goes over the image's grants
//! once, and takes memory for the privileges that they give the user; of a table that he didn't own
//! it looks each column up there. Any later record costs its own bytes; at `next_record` it costs a
//! buffer of `csv` too, at `write_to` and `write_some` one buffer serves many rows. These make each
//! record after they have written the one before, and keep the text of at most 128 rows.
#![tactic(auto)]

mod asked;
mod cut_record;
mod fault;
mod judgement;
pub mod laws;
mod lines;
mod marks;
mod passage;
pub mod record;
mod rows;
mod ticket;
mod walk;

pub use fault::ExportFault;
pub use ticket::Ticket;
