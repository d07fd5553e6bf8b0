//! Lines of texts, plans and scripts over two interventions, and lines of certificates: the tests of `text_lines`,
//! `plan_text`, `move_script` and `certificate_lines`.

mod certificates;
mod lines;
mod plans;
mod samples;
mod scripts;
