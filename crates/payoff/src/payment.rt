use units::{Price, Quantity};

/// What a holding is paid by: counted quantity, target price, and the price that is paid for each MWh.
#[derive(Clone, Copy)]
pub struct Payment {
    pub quantity: Quantity,
    pub target: Price,
    pub price: Price,
}
