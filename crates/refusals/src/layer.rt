/// The layer that refuses a call. The fault of an upper layer holds that of the lower one whole, and
/// is of the lower one's layer.
#[derive(Clone, Copy, PartialEq, Eq, Debug)]
pub enum Layer {
    Link,
    Store,
    Text,
    Session,
    Centre,
}
