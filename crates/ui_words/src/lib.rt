//! What the boxes and messages over the panels say, and what a key makes of a box.
#![tactic(auto)]

mod box_lines;
mod carry;
mod causes;
mod chosen;
mod message;
mod path_lines;
mod replies;
mod things;

pub use box_lines::{
    delete_lines, folder_line, link_name_line, link_text_line, mask_line, message_lines, mode_box,
    target_line, thing_text, waits_lines,
};
pub use carry::Carry;
pub use causes::{cause_text, resolve_text};
pub use chosen::Chosen;
pub use message::Message;
pub use path_lines::{columns_in_box, cut_in_front, path_line};
pub use replies::{
    AnswerReply, DeleteReply, LineReply, ModeReply, answer_reply_to, closes_message,
    delete_reply_to, line_reply, mode_reply,
};
