// The modes of a file; a Load has the number of its mode as form.
//
// No enum: C keeps the number of a walk (`Ctx`), which may be any other too, and what becomes of it is fixed (`walk::visit_call`).
pub const RUNTIME: u16 = 0;

pub const EXTERNAL: u16 = 1;

pub const INLINE: u16 = 2;
