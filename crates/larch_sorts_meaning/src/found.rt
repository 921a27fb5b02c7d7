/// The one thing that was found, or that there are several.
#[derive(Drop)]
pub enum Found<T> {
    One(T),
    Several,
}
